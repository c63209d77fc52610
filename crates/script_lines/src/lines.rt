ghost use Rattle.std.specs.Prelude.{◌≡◌, IfOk};
ghost use Rattle.form_urlencoded.specs.Form.{split_once};
ghost use Rattle.script_lines.specs.Lines.{script_line, parts_line, is_skipped, draws_from, bad_head};

use crate::line_place::{LinePlace, bad_line};
use crate::step::{Step, verb_step};
use ask_pairs::pairs_of;
use decimal_text::number;
use login_base::{Draws, Memory};
use std::alloc::Global;

/// The most bytes of a line that asks something, without its newline.
pub const LINE_LIMIT: usize = 131_072;

/// The last moment that a line can name.
const LAST_MOMENT: u64 = (1 << 53) - 1;

/// A line that isn't passed over.
#[derive(Debug, Drop)]
pub struct ScriptLine {
    /// In milliseconds, below 2^53.
    pub moment: u64,
    pub draws: Draws,
    pub step: Step,
}

/// The ten draws of a draw number: the number and those that follow it, modulo 2^64.
fn draws_from(draw: u64) -> Draws
    ensures { result ≡ draws_from draw }
{
    Draws([
        draw,
        draw.wrapping_add(1),
        draw.wrapping_add(2),
        draw.wrapping_add(3),
        draw.wrapping_add(4),
        draw.wrapping_add(5),
        draw.wrapping_add(6),
        draw.wrapping_add(7),
        draw.wrapping_add(8),
        draw.wrapping_add(9),
    ])
}

/// Whether a line asks nothing: it is empty, or a comment.
pub fn is_skipped(line: &[u8]) -> bool
    ensures value { result ≡ is_skipped line.now }
{
    match line {
        [] => true,
        [first, ..] => *first == b'#',
    }
}

/// The bytes before the first space, or all, and those after it.
fn split_space(text: &[u8]) -> (&[u8], &[u8])
    ensures before { result.0.now ≡ (split_once 32 text.now).0 }
    ensures after { result.1.now ≡ (split_once 32 text.now).1 }
{
    match text.iter().position(|b| *b == b' ') {
        Some(i) => (&text[..i], &text[i + 1..]),
        None => (text, &[]),
    }
}

/// A line without a readable head.
fn bad_head(alloc: Global) -> Result<ScriptLine, Memory>
    ensures line { IfOk result (λ line. line ≡ bad_head) }
{
    let ask = bad_line(alloc, LinePlace::Head)?;
    Ok(ScriptLine {
        moment: 0,
        draws: draws_from(0),
        step: Step::Ask(ask),
    })
}

/// What a line within the limit says.
#[tactic(auto, unfolding(crate::specs::Lines::parts_line))]
fn parts_line(alloc: Global, line: &[u8]) -> Result<ScriptLine, Memory>
    ensures line { IfOk result (λ l. l ≡ parts_line line.now) }
{
    let (moment, rest) = split_space(line);
    let (draw, rest) = split_space(rest);
    let (verb, pairs) = split_space(rest);
    match (number(moment, LAST_MOMENT), number(draw, u64::MAX)) {
        (Some(moment), Some(draw)) => {
            let pairs = pairs_of(alloc, pairs)?;
            let step = verb_step(alloc, verb, pairs.as_slice())?;
            Ok(ScriptLine {
                moment,
                draws: draws_from(draw),
                step,
            })
        }
        _ => bad_head(alloc),
    }
}

/// What a line says.
#[tactic(auto, unfolding(crate::specs::Lines::script_line))]
pub fn script_line(alloc: Global, line: &[u8]) -> Result<ScriptLine, Memory>
    ensures line { IfOk result (λ l. l ≡ script_line line.now) }
{
    if line.len() > LINE_LIMIT {
        return bad_head(alloc);
    }
    parts_line(alloc, line)
}

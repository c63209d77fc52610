ghost use Rattle.std.specs.Prelude.{◌≡◌, IfOk, codes};
ghost use Rattle.asks.specs.declared.ask.Ask.TheVariants as asks;
ghost use Rattle.ask_pairs.specs.Pairs.{value_of};
ghost use Rattle.script_lines.specs.declared.step.Step.TheVariants as steps;
ghost use Rattle.script_lines.specs.LinePlaces.{line_place_text};
ghost use Rattle.script_lines.specs.Steps.{handle_given, verb_ask, named_ask, begin, settle, verb_step};

use crate::line_place::{LinePlace, bad_line};
use ask_pairs::{Pair, ask_of, value_of};
use asks::Ask;
use decimal_text::number;
use login_base::Memory;
use std::alloc::Global;

/// The greatest handle of a begun ask; the least is 1.
const LAST_HANDLE: u64 = 64;

/// What a line does.
#[derive(Debug, Drop)]
pub enum Step {
    /// Asks this.
    Ask(Ask),
    /// Begins this ask, which may be malformed, under a handle from 1 to 64.
    Begin { handle: u64, ask: Ask },
    /// Settles the ask that was begun under this handle, from 1 to 64.
    Settle { handle: u64 },
}

/// A handle is given.
fn handle_given(pairs: &[Pair]) -> Option<u64>
    ensures { result ≡ handle_given pairs.now }
{
    match value_of(pairs, b"h") {
        Some(text) => match number(text, LAST_HANDLE) {
            Some(handle) if handle >= 1 => Some(handle),
            _ => None,
        },
        None => None,
    }
}

/// The ask of a verb and its pairs. Whoever runs a script is a local administrator.
fn verb_ask(alloc: Global, verb: &[u8], pairs: &[Pair]) -> Result<Ask, Memory>
    ensures { IfOk result (λ ask. ask ≡ verb_ask verb.now pairs.now) }
{
    ask_of(alloc, verb, pairs, true)
}

/// The ask of the verb that the pairs name, and of the same pairs.
fn named_ask(alloc: Global, pairs: &[Pair]) -> Result<Ask, Memory>
    ensures ask { IfOk result (λ ask. ask ≡ named_ask (value_of (codes "verb") pairs.now) pairs.now) }
{
    match value_of(pairs, b"verb") {
        Some(verb) => verb_ask(alloc, verb, pairs),
        None => bad_line(alloc, LinePlace::Verb),
    }
}

/// A line that asks something malformed at this place.
fn bad_step(alloc: Global, place: LinePlace) -> Result<Step, Memory>
    ensures step { IfOk result (λ step. step ≡ steps.Ask (asks.Bad (line_place_text place))) }
{
    let ask = bad_line(alloc, place)?;
    Ok(Step::Ask(ask))
}

/// What the pairs of a begin do.
fn begin_step(alloc: Global, pairs: &[Pair]) -> Result<Step, Memory>
    ensures step { IfOk result (λ step. step ≡ begin (handle_given pairs.now) pairs.now) }
{
    match handle_given(pairs) {
        Some(handle) => {
            let ask = named_ask(alloc, pairs)?;
            Ok(Step::Begin { handle, ask })
        }
        None => bad_step(alloc, LinePlace::Handle),
    }
}

/// What the pairs of a settle do.
fn settle_step(alloc: Global, pairs: &[Pair]) -> Result<Step, Memory>
    ensures step { IfOk result (λ step. step ≡ settle (handle_given pairs.now)) }
{
    match handle_given(pairs) {
        Some(handle) => Ok(Step::Settle { handle }),
        None => bad_step(alloc, LinePlace::Handle),
    }
}

/// What a verb and its pairs do.
#[tactic(auto, unfolding(crate::specs::Steps::verb_step))]
pub fn verb_step(alloc: Global, verb: &[u8], pairs: &[Pair]) -> Result<Step, Memory>
    ensures step { IfOk result (λ step. step ≡ verb_step verb.now pairs.now) }
{
    if verb == b"begin".as_slice() {
        return begin_step(alloc, pairs);
    }
    if verb == b"settle".as_slice() {
        return settle_step(alloc, pairs);
    }
    let ask = verb_ask(alloc, verb, pairs)?;
    Ok(Step::Ask(ask))
}

ghost use Rattle.std.specs.Prelude.{◌≡◌, ◌≤◌, ◌-◌, ◌^◌};
ghost use Rattle.hall_answers.specs.HasSerials.{HasSerials};
ghost use Rattle.login_base.specs.Outside.{Rose};
ghost use Rattle.login_desk.specs.Outside.{IsUnread};
ghost use Rattle.login_desk.specs.Turn.{TurnEnds};
ghost use Rattle.script_play.specs.Play.{facts_in};

use crate::outside::Outside;
use login_base::{Memory, Put, Sink, Source, Steps};
use script_lines::is_skipped;
use script_play::Player;
use std::sync::ledger::Ledger;

/// How one line came out.
#[derive(Clone, Copy, Debug, PartialEq, Eq)]
pub enum Turn {
    /// The line asks nothing, or its text was written.
    Told,
    /// A write failed.
    Failed,
    Memory,
}

/// Answers one line.
pub fn answer_line<L: Ledger, S: Source, R: Source, W: Sink>(
    player: &mut Player,
    line: &[u8],
    outside: &mut Outside<S, R, W>,
    steps: &mut Steps<L>,
) -> Turn
    requires serials { HasSerials (facts_in player.old) (2 ^ 63 - 8) }
    ensures turn { TurnEnds player.old player.new line.now outside.old.written outside.new.written result }
    ensures cause { result ≡ Turn.Failed → Rose outside.old.write_faults outside.new.write_faults }
    ensures faults { outside.old.write_faults ≤ outside.new.write_faults }
    ensures unread { IsUnread outside.old outside.new }
{
    if is_skipped(line) {
        return Turn::Told;
    }
    match player.answer(line, steps) {
        Ok(text) => match outside.put(text.as_slice()) {
            Put::All => Turn::Told,
            Put::Failed => Turn::Failed,
        },
        Err(Memory) => Turn::Memory,
    }
}

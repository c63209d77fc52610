ghost use Rattle.std.specs.Prelude.{◌≡◌, ◌<◌, ◌≤◌, ◌+◌, ◌^◌, []};
ghost use Rattle.hall_answers.specs.HasSerials.{HasSerials};
ghost use Rattle.login_base.specs.Outside.{Rose, counted};
ghost use Rattle.login_desk.specs.Outcome.{PlayEnds, end_of};
ghost use Rattle.script_play.specs.Base.{base_of};

use crate::intake::{Intake, Next, SCRIPT_LIMIT};
use crate::outside::Outside;
use crate::turn::{Turn, answer_line};
use login_base::{Sink, Source, Steps};
use realm_data::Realm;
use script_play::Player;
use std::alloc::Global;
use std::sync::ledger::Ledger;

/// So many bytes are read at once.
const BUFFER: usize = 65_536;

/// How a script came out.
#[derive(Clone, Copy, Debug, PartialEq, Eq)]
pub enum End {
    Done,
    ReadFailed,
    PutFailed,
    TooLong,
    Memory,
}

/// How a script came out whose last line came out so.
fn end_of(turn: Turn) -> End
    ensures { result ≡ end_of turn }
{
    match turn {
        Turn::Told => End::Done,
        Turn::Failed => End::PutFailed,
        Turn::Memory => End::Memory,
    }
}

/// Answers the lines of a script, one after the other.
fn play_lines<L: Ledger, S: Source, R: Source, W: Sink>(
    alloc: Global,
    player: &mut Player,
    intake: &mut Intake,
    outside: &mut Outside<S, R, W>,
    steps: &mut Steps<L>,
) -> End
    requires journal { player.old.journal ≡ [] }
    requires begun { player.old.begun ≡ [] }
    requires serials { HasSerials player.old.base (2 ^ 62) }
    requires pending { intake.old.pending ≡ [] }
    requires taken { intake.old.taken ≡ 0 }
    ensures play { PlayEnds player.old.base outside.old outside.new result }
    ensures end { result ≡ End.Done → outside.new.script.ends ≡ counted outside.old.script.ends }
    ensures read_cause { result ≡ End.ReadFailed → Rose outside.old.script.faults outside.new.script.faults }
    ensures put_cause { result ≡ End.PutFailed → Rose outside.old.write_faults outside.new.write_faults }
    ensures puts { outside.old.write_faults ≤ outside.new.write_faults }
    ensures realm { outside.new.realm ≡ outside.old.realm }
{
    for _ in 0..SCRIPT_LIMIT + 1 {
        match outside.next_line(alloc, intake) {
            Next::Line(line) => match answer_line(player, line.as_slice(), outside, steps) {
                Turn::Told => {}
                Turn::Failed => return End::PutFailed,
                Turn::Memory => return End::Memory,
            },
            Next::Last(line) => {
                return end_of(answer_line(player, line.as_slice(), outside, steps));
            }
            Next::End => return End::Done,
            Next::Failed => return End::ReadFailed,
            Next::Full => return End::TooLong,
            Next::Memory => return End::Memory,
        }
    }
    End::TooLong
}

/// Plays a script over a hall with the given realm, or with the built-in one.
pub fn play_script<L: Ledger, S: Source, R: Source, W: Sink>(
    alloc: Global,
    given: Option<Realm>,
    outside: &mut Outside<S, R, W>,
    steps: &mut Steps<L>,
) -> End
    ensures play { PlayEnds (base_of given) outside.old outside.new result }
    ensures end { result ≡ End.Done → outside.new.script.ends ≡ counted outside.old.script.ends }
    ensures read_cause { result ≡ End.ReadFailed → Rose outside.old.script.faults outside.new.script.faults }
    ensures put_cause { result ≡ End.PutFailed → Rose outside.old.write_faults outside.new.write_faults }
    ensures puts { outside.old.write_faults ≤ outside.new.write_faults }
    ensures realm { outside.new.realm ≡ outside.old.realm }
{
    let Ok(mut player) = Player::start(alloc, given) else {
        return End::Memory;
    };
    let Ok(mut intake) = Intake::make(alloc, BUFFER) else {
        return End::Memory;
    };
    play_lines(alloc, &mut player, &mut intake, outside, steps)
}

ghost use Rattle.std.specs.Prelude.{◌≡◌, ◌⊎◌, ◌≢◌, IsTrue, IfOk, None, Some, IsSomeAnd};
ghost use Rattle.login_base.specs.Outside.{Rose, counted, after_known};
ghost use Rattle.login_desk.specs.Causes.{IsReplayed, IsChecked, IsRefused, IsUnreadable, IsPutFailed, IsOutOfMemory, IsTooLong, HasAll, HasNoRealm};
ghost use Rattle.realm_check.specs.Check.{check_line};
ghost use Rattle.login_desk.specs.Command.{command_of};
ghost use Rattle.login_desk.specs.Outside.{IsUnread, IsFaultless};
ghost use Rattle.script_play.specs.Base.{or_builtin, base_of};
ghost use Rattle.login_desk.specs.RealmGiven.{refusal_line};
ghost use Rattle.login_desk.specs.Run.{RunMeans, CommandMeans, BytesMean, WorkMeans, ReplayMeans, CheckMeans, LineMeans, LineEnds, is_status, usage_line};
ghost use Rattle.login_desk.specs.Statuses.{number_of};

use crate::command::{Command, command_of};
use crate::outside::Outside;
use crate::play::{End, play_script};
use crate::realm_given::{Given, realm_given, refusal_line, too_long};
use crate::status::{Outcome, Status};
use crate::whole::Whole;
use login_base::{Argv, Memory, Put, Sink, Source, Steps, discard};
use realm_check::check_line;
use realm_data::Realm;
use realm_file::RealmFault;
use std::alloc::Global;
use std::sync::ledger::Ledger;

/// Writes the last line.
fn close<S: Source, R: Source, W: Sink>(
    outside: &mut Outside<S, R, W>,
    line: &[u8],
    outcome: Outcome,
) -> Outcome
    requires other { outcome ≢ Outcome.PutFailed }
    ensures line { LineEnds outside.old.written outside.new.written line.now outcome result }
    ensures cause { result ≡ Outcome.PutFailed → Rose outside.old.write_faults outside.new.write_faults }
    ensures unread { IsUnread outside.old outside.new }
{
    match outside.put(line) {
        Put::All => outcome,
        Put::Failed => Outcome::PutFailed,
    }
}

/// Answers the script.
fn replay<L: Ledger, S: Source, R: Source, W: Sink>(
    alloc: Global,
    given: Option<Realm>,
    outside: &mut Outside<S, R, W>,
    steps: &mut Steps<L>,
) -> Outcome
    ensures means { ReplayMeans (base_of given) outside.old outside.new (number_of result) }
    ensures end { result ≡ Outcome.Done → outside.new.script.ends ≡ counted outside.old.script.ends }
    ensures realm { outside.new.realm ≡ outside.old.realm }
{
    match play_script(alloc, given, outside, steps) {
        End::Done => Outcome::Done,
        End::ReadFailed => close(outside, b"error 4 read\n", Outcome::ReadFailed),
        End::PutFailed => Outcome::PutFailed,
        End::TooLong => close(outside, b"error 9 script\n", Outcome::TooLong),
        End::Memory => Outcome::Memory,
    }
}

/// Says how large the given realm is, or the built-in one.
fn check<S: Source, R: Source, W: Sink>(
    alloc: Global,
    given: Option<Realm>,
    outside: &mut Outside<S, R, W>,
) -> Outcome
    ensures means { CheckMeans (or_builtin given) outside.old outside.new (number_of result) }
    ensures unread { IsUnread outside.old outside.new }
{
    let Ok(realm) = or_builtin(alloc, given) else {
        return Outcome::Memory;
    };
    match check_line(alloc, &realm) {
        Ok(line) => close(outside, line.as_slice(), Outcome::Done),
        Err(Memory) => Outcome::Memory,
    }
}

fn or_builtin(alloc: Global, given: Option<Realm>) -> Result<Realm, Memory>
    ensures { IfOk result (λ realm. realm ≡ or_builtin given) }
{
    match given {
        Some(realm) => Ok(realm),
        None => Realm::builtin(alloc),
    }
}

/// Does what a command does with a realm.
fn work<L: Ledger, S: Source, R: Source, W: Sink>(
    alloc: Global,
    command: Command,
    given: Option<Realm>,
    outside: &mut Outside<S, R, W>,
    steps: &mut Steps<L>,
) -> Outcome
    ensures means { WorkMeans command given outside.old outside.new (number_of result) }
    ensures end { result ≡ Outcome.Done → command ≡ Command.Replay →
        outside.new.script.ends ≡ counted outside.old.script.ends }
    ensures realm { outside.new.realm ≡ outside.old.realm }
{
    match command {
        Command::Replay => replay(alloc, given, outside, steps),
        Command::Check => check(alloc, given, outside),
    }
}

/// Tells why the command can't go on.
fn refuse<S: Source, R: Source, W: Sink>(
    alloc: Global,
    refusal: RealmFault,
    outside: &mut Outside<S, R, W>,
) -> Outcome
    ensures means { LineMeans (refusal_line refusal) 3 outside.old outside.new (number_of result) ⊎
        ((result ≡ Outcome.Memory) × (outside.new.written ≡ outside.old.written)) }
    ensures unread { IsUnread outside.old outside.new }
{
    let line = refusal_line(alloc, &refusal);
    discard(refusal);
    match line {
        Ok(line) => close(outside, line.as_slice(), Outcome::NoRealm),
        Err(Memory) => Outcome::Memory,
    }
}

/// Goes on with the bytes of the realm source.
fn with_bytes<L: Ledger, S: Source, R: Source, W: Sink>(
    alloc: Global,
    command: Command,
    bytes: &[u8],
    outside: &mut Outside<S, R, W>,
    steps: &mut Steps<L>,
) -> Outcome
    ensures means { BytesMean command bytes.now outside.old outside.new (number_of result) }
    ensures script_end { result ≡ Outcome.Done → command ≡ Command.Replay →
        outside.new.script.ends ≡ counted outside.old.script.ends }
    ensures realm { outside.new.realm ≡ outside.old.realm }
{
    match realm_given(alloc, bytes) {
        Given::Realm(given) => work(alloc, command, given, outside, steps),
        Given::Refused(refusal) => refuse(alloc, refusal, outside),
        Given::Memory => Outcome::Memory,
    }
}

/// Does what a command says: it reads the realm source first.
fn obey<L: Ledger, S: Source, R: Source, W: Sink>(
    alloc: Global,
    command: Command,
    outside: &mut Outside<S, R, W>,
    steps: &mut Steps<L>,
) -> Outcome
    ensures means { CommandMeans command outside.old outside.new (number_of result) }
    ensures script_end { result ≡ Outcome.Done → command ≡ Command.Replay →
        outside.new.script.ends ≡ counted outside.old.script.ends }
    ensures realm_end { result ≡ Outcome.Done → outside.new.realm.ends ≡ counted outside.old.realm.ends }
{
    match outside.take_realm(alloc) {
        Whole::Bytes(bytes) => with_bytes(alloc, command, bytes.as_slice(), outside, steps),
        Whole::TooLong => refuse(alloc, too_long(alloc), outside),
        Whole::Failed => close(outside, b"error 4 read\n", Outcome::ReadFailed),
        Whole::Memory => Outcome::Memory,
    }
}

/// Does what the command says, if any.
fn outcome_of<L: Ledger, S: Source, R: Source, W: Sink>(
    alloc: Global,
    command: Option<Command>,
    outside: &mut Outside<S, R, W>,
    steps: &mut Steps<L>,
) -> Outcome
    ensures means { RunMeans command outside.old outside.new (number_of result) }
    ensures script_end { result ≡ Outcome.Done → command ≡ Some Command.Replay →
        outside.new.script.ends ≡ counted outside.old.script.ends }
    ensures realm_end { result ≡ Outcome.Done → outside.new.realm.ends ≡ counted outside.old.realm.ends }
{
    match command {
        Some(command) => obey(alloc, command, outside, steps),
        None => close(outside, b"error 2 usage\n", Outcome::Usage),
    }
}

/// Does all that the program does, and answers the status that it ends with.
pub fn run<L: Ledger, S: Source, R: Source, W: Sink>(
    alloc: Global,
    arguments: &Argv,
    outside: &mut Outside<S, R, W>,
    steps: &mut Steps<L>,
) -> Status
    ensures does { RunMeans (command_of arguments.now) outside.old outside.new result.0 }
    ensures known { IsTrue (is_status result.0) }

    // 0: the realm source was read to its end, and the line of a check is written; or in a replay the
    // script was read to its end too, and every line is answered.
    ensures replayed { result.0 ≡ 0 → command_of arguments.now ≡ Some Command.Replay →
        IsReplayed outside.old outside.new }
    ensures checked { result.0 ≡ 0 → command_of arguments.now ≡ Some Command.Check →
        IsChecked outside.old outside.new }
    ensures realm_end { result.0 ≡ 0 → outside.new.realm.ends ≡ counted outside.old.realm.ends }
    ensures script_end { result.0 ≡ 0 → command_of arguments.now ≡ Some Command.Replay →
        outside.new.script.ends ≡ counted outside.old.script.ends }
    ensures scriptless { command_of arguments.now ≡ Some Command.Check → outside.new.script ≡ outside.old.script }

    // 2: exactly where the arguments are outside the grammar and the line on it could be written.
    ensures usage { result.0 ≡ 2 → outside.new.written ≡ after_known outside.old.written usage_line }
    ensures grammar { result.0 ≡ 2 → command_of arguments.now ≡ None }
    ensures outside { command_of arguments.now ≡ None → (result.0 ≡ 2) ⊎ (result.0 ≡ 5) }
    ensures unread { command_of arguments.now ≡ None → IsUnread outside.old outside.new }

    // 3: exactly where the realm source has bytes with which the command can't go on.
    ensures realm { result.0 ≡ 3 → IsSomeAnd (command_of arguments.now) (λ c. IsRefused c outside.old outside.new) }
    ensures refused { IsSomeAnd (command_of arguments.now) (λ c. HasNoRealm c outside.old.realm.left) →
        IsFaultless outside.old outside.new → (result.0 ≡ 3) ⊎ (result.0 ≡ 7) }

    // 4: only where the count of faults of the source that was read rose; the whole lines before are answered.
    ensures read { result.0 ≡ 4 → IsSomeAnd (command_of arguments.now) (λ c. IsUnreadable c outside.old outside.new) }
    ensures read_cause { result.0 ≡ 4 → Rose outside.old.realm.faults outside.new.realm.faults ⊎
        Rose outside.old.script.faults outside.new.script.faults }

    // 5: only where the sink's count of faults rose; a front of what was due is written.
    ensures put { result.0 ≡ 5 → IsPutFailed outside.old outside.new (command_of arguments.now) }
    ensures put_cause { result.0 ≡ 5 → Rose outside.old.write_faults outside.new.write_faults }

    // 7: want of memory; nothing is written, or in a replay the reply lines to the first whole lines.
    ensures memory { result.0 ≡ 7 →
        IsSomeAnd (command_of arguments.now) (λ c. IsOutOfMemory c outside.old outside.new) }

    // 9: exactly 2^32 bytes of script were taken; the whole lines in them are answered.
    ensures long { result.0 ≡ 9 → IsSomeAnd (command_of arguments.now) (λ c. IsTooLong c outside.old outside.new) }

    // Where no count rose, a realm is checked, and a short script is answered whole, but for want of memory.
    ensures complete { IsSomeAnd (command_of arguments.now) (λ c. HasAll outside.old c) →
        IsFaultless outside.old outside.new → (result.0 ≡ 0) ⊎ (result.0 ≡ 7) }
{
    outcome_of(alloc, command_of(arguments), outside, steps).status()
}

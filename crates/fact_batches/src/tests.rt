ghost use Rattle.login_base.specs.Steps.{IsBlank};

use crate::batch;
use facts::{Action, Chronicle, Fact, OtpSecret, Secret, SecretKind};
use keeper_rows::{AccountRow, Batch, Change, Row, RowKey, SessionRow};
use login_base::{Id, Memory, Moment, Sequence, SessionId, Steps, UserId, read_name};
use std::alloc::Global;
use std::marker::Brand;
use std::process::Abort;
use std::sync::ledger::{Blank, Ledger};
use std::test::Fail;

const ANN: UserId = UserId(1);

const SESSION: SessionId = SessionId(Id {
    serial: 3,
    high: 306,
    low: 307,
});

fn user(alloc: Global) -> Result<Fact, Fail> {
    let mut roles = Sequence::new(alloc);
    roles.push(read_name(alloc, b"staff")?.ok_or("no name")?)?;
    roles.push(read_name(alloc, b"guest")?.ok_or("no name")?)?;
    let name = read_name(alloc, b"ann")?.ok_or("no name")?;
    let user = ANN;
    Ok(Fact::UserPut { user, name, roles })
}

/// A secret of one-time codes of the user, set with a serial.
fn otp(alloc: Global, serial: u64) -> Result<Fact, Fail> {
    let key = Sequence::from_vec(Vec::from_slice(alloc, b"12345678901234567890")?);
    let secret = OtpSecret::new(key).ok_or("no key")?;
    Ok(Fact::SecretSet {
        user: ANN,
        kind: SecretKind::Otp,
        serial,
        secret: Secret::Otp { secret },
        by: None,
    })
}

/// A new user, who has to accept the terms, and fails once.
fn new_user(alloc: Global) -> Result<Sequence<Fact>, Fail> {
    let user = user(alloc)?;
    let otp = otp(alloc, 2)?;
    let mut facts = Sequence::new(alloc);
    facts.push(user)?;
    facts.push(otp)?;
    facts.push(Fact::ActionSet {
        user: ANN,
        kind: Action::Terms,
    })?;
    facts.push(Fact::Failed {
        user: ANN,
        moment: Moment::clamped(500),
    })?;
    Ok(facts)
}

fn level(level: u32, moment: u64) -> Fact {
    Fact::Level {
        session: SESSION,
        level,
        moment: Moment::clamped(moment),
    }
}

/// A session that reaches two levels.
fn session(alloc: Global) -> Result<Sequence<Fact>, Memory> {
    let mut facts = Sequence::new(alloc);
    facts.push(Fact::Session {
        session: SESSION,
        root: None,
        user: ANN,
        moment: Moment::clamped(2_000),
        idle: 1_800,
        max: 36_000,
    })?;
    facts.push(level(2, 59_000))?;
    facts.push(level(1, 2_000))?;
    Ok(facts)
}

fn account_in(batch: &Batch) -> Option<&AccountRow> {
    match batch.changes.get(0) {
        Some(Change::Put(Row::Account(row))) => Some(row),
        _ => None,
    }
}

fn session_in(batch: &Batch) -> Option<&SessionRow> {
    match batch.changes.get(0) {
        Some(Change::Put(Row::Session(row))) => Some(row),
        _ => None,
    }
}

/// The serial of the secret that the first change drops.
fn dropped_in(batch: &Batch) -> i64 {
    match batch.changes.get(0) {
        Some(Change::Drop(RowKey::Secret(serial))) => *serial,
        _ => 0,
    }
}

/// The batches of three entries, one after the other.
fn makes_batches<L: Ledger, R: Abort>(rt: &R, alloc: Global, blank: Blank) -> Result<(), Fail>
    requires blank { IsBlank blank L.name L.parts }
{
    let mut steps = Steps::<L>::new(blank);
    let mut chronicle = Chronicle::make(alloc);
    let added = new_user(alloc)?;
    let first = batch(
        alloc,
        &chronicle,
        added.as_slice(),
        Moment::clamped(500),
        &mut steps,
    )?;
    assert_eq!(rt; first.changes.len(), 3);
    let ann = account_in(&first).ok_or("no account")?;
    assert_eq!(rt; ann.name.as_str(), "ann");
    assert_eq!(rt; ann.roles.as_str(), "guest,staff");
    assert_eq!(rt; ann.actions.as_str(), "terms");
    assert_eq!(rt; ann.count, 1);
    assert_eq!(rt; ann.last, 500);
    chronicle.reserve(added.as_slice())?;
    chronicle.add();
    let mut replaced = Sequence::new(alloc);
    replaced.push(otp(alloc, 3)?)?;
    let second = batch(
        alloc,
        &chronicle,
        replaced.as_slice(),
        Moment::clamped(900),
        &mut steps,
    )?;
    assert_eq!(rt; second.changes.len(), 3);
    assert_eq!(rt; dropped_in(&second), 2);
    let login = session(alloc)?;
    let third = batch(
        alloc,
        &chronicle,
        login.as_slice(),
        Moment::clamped(59_000),
        &mut steps,
    )?;
    assert_eq!(rt; third.changes.len(), 2);
    let own = session_in(&third).ok_or("no session")?;
    assert_eq!(rt;
        own.id.as_str(),
        "0000000000000003.00000000000001320000000000000133"
    );
    assert_eq!(rt; own.levels.as_str(), "1@2000,2@59000");
    Ok(())
}

#[test]
fn a_batch_has_each_row_once(rt: HostRuntime) -> Result<(), Fail> {
    makes_batches::<Brand, HostRuntime>(&rt, rt.alloc(), Blank::new(1))
}

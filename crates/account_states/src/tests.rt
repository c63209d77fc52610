ghost use Rattle.login_base.specs.Steps.{IsBlank};

use crate::count::account_count;
use crate::{AccountState, has_room, state_of};
use facts::{Chronicle, Fact, Facts, Realm, RealmParts};
use lockout::{Mode, Policy, Standing};
use login_base::{
    Duplicate, Id, Memory, Moment, Name, Sequence, SessionId, Steps, TabKey, UserId, discard,
};
use std::alloc::Global;
use std::marker::Brand;
use std::process::Abort;
use std::sync::ledger::{Blank, Ledger};
use std::test::Fail;

const ANN: UserId = UserId(4);

const BOB: UserId = UserId(5);

const OPENED: Standing = Standing {
    count: 2,
    last: Some(Moment::ZERO),
    until: 0,
    permanent: false,
};

const CLOSED: Standing = Standing {
    count: 9,
    last: Some(Moment::ZERO),
    until: 0,
    permanent: true,
};

/// A fact to be made.
#[derive(Clone, Copy)]
enum Made {
    Failed(UserId, u64),
    Completed(UserId),
    Disabled(UserId),
    Enabled(UserId),
    Standing(UserId, Standing),
    /// A realm is put that closes an account by its second failure.
    ClosingRealm,
}

/// A fact, when the lock of Ann ends behind it, and whether her account is closed.
type Row = (Made, u64, bool);

const HISTORY: [Row; 20] = [
    (Made::Failed(ANN, 2_000), 0, false),
    (Made::Failed(ANN, 4_000), 0, false),
    (Made::Failed(BOB, 5_000), 0, false),
    (Made::Failed(ANN, 6_000), 66_000, false),
    (Made::Completed(BOB), 66_000, false),
    (Made::Enabled(BOB), 66_000, false),
    (Made::Standing(BOB, CLOSED), 66_000, false),
    (Made::Completed(ANN), 0, false),
    (Made::Standing(ANN, OPENED), 0, false),
    (Made::Failed(ANN, 70_000), 130_000, false),
    (Made::Enabled(ANN), 0, false),
    (Made::Failed(ANN, 72_000), 0, false),
    (Made::Failed(ANN, 74_000), 0, false),
    (Made::ClosingRealm, 0, false),
    (Made::Failed(ANN, 76_000), 0, true),
    (Made::Completed(ANN), 0, false),
    (Made::Disabled(ANN), 0, true),
    (Made::Enabled(BOB), 0, true),
    (Made::Enabled(ANN), 0, false),
    (Made::Standing(ANN, CLOSED), 0, true),
];

/// Adds a fact to a chronicle.
fn add(chronicle: &mut Chronicle, fact: Fact) -> Result<(), Memory> {
    let facts = [fact];
    let reserved = chronicle.reserve(&facts);
    discard(facts);
    reserved?;
    chronicle.add();
    Ok(())
}

fn completed(user: UserId) -> Fact {
    let id = Id {
        serial: 7,
        high: 1,
        low: 2,
    };
    Fact::Completed {
        tab: TabKey(id),
        user,
        session: SessionId(id),
        moment: Moment::ZERO,
    }
}

fn closing_realm(alloc: Global) -> Result<Fact, Fail> {
    let builtin = Realm::builtin(alloc)?;
    let lockout = Policy {
        mode: Mode::Permanent,
        max_failures: 1,
        ..*builtin.lockout()
    };
    let parts = RealmParts {
        lockout,
        ..builtin.parts().duplicate(alloc)?
    };
    let realm = Realm::new(alloc, parts)?.ok_or("no realm")?;
    Ok(Fact::RealmPut { version: 1, realm })
}

fn fact_of(alloc: Global, made: Made) -> Result<Fact, Fail> {
    Ok(match made {
        Made::Failed(user, moment) => Fact::Failed {
            user,
            moment: Moment::clamped(moment),
        },
        Made::Completed(user) => completed(user),
        Made::Disabled(user) => Fact::Disabled { user },
        Made::Enabled(user) => Fact::Enabled { user },
        Made::Standing(user, standing) => Fact::Standing { user, standing },
        Made::ClosingRealm => closing_realm(alloc)?,
    })
}

fn state<L: Ledger>(chronicle: &Chronicle, blank: Blank) -> AccountState
    requires blank { IsBlank blank L.name L.parts }
{
    let mut steps = Steps::<L>::new(blank);
    state_of(&Facts::of(chronicle), ANN, &mut steps)
}

#[test]
fn each_fact_leaves_a_state(rt: HostRuntime) -> Result<(), Fail> {
    let mut chronicle = Chronicle::make(rt.alloc());
    for (row, (made, until, closed)) in HISTORY.iter().enumerate() {
        add(&mut chronicle, fact_of(rt.alloc(), *made)?)?;
        let state = state::<Brand>(&chronicle, Blank::new(1));
        assert_eq!(rt; state.standing.until, *until, "row {row}");
        assert_eq!(rt; state.is_closed(), *closed, "row {row}");
    }
    Ok(())
}

#[test]
fn a_lock_has_an_end(rt: HostRuntime) {
    let locked = AccountState {
        standing: Standing {
            count: 3,
            last: Some(Moment::clamped(6_000)),
            until: 66_000,
            permanent: false,
        },
        disabled: false,
    };
    assert_eq!(rt; locked.locked_until(Moment::clamped(65_999)), Some(66_000));
    assert_eq!(rt; locked.locked_until(Moment::clamped(66_000)), None);
    assert!(rt; !locked.is_closed());
}

fn put_user(alloc: Global, chronicle: &mut Chronicle, user: UserId) -> Result<(), Memory> {
    let name = Name::known(alloc, b"somebody")?;
    let roles = Sequence::new(alloc);
    add(chronicle, Fact::UserPut { user, name, roles })
}

/// There are so many accounts, and room for one more.
fn counts<L: Ledger, R: Abort>(
    rt: &R,
    alloc: Global,
    chronicle: &Chronicle,
    blank: Blank,
) -> Result<(), Memory>
    requires blank { IsBlank blank L.name L.parts }
{
    let mut steps = Steps::<L>::new(blank);
    let more = [Fact::Disabled { user: BOB }];
    let facts = Facts::with(chronicle, &more);
    assert_eq!(rt; account_count(alloc, &facts, &mut steps)?, 2);
    assert!(rt; has_room(alloc, &facts, &mut steps)?);
    Ok(())
}

#[test]
fn an_account_counts_once(rt: HostRuntime) -> Result<(), Fail> {
    let mut chronicle = Chronicle::make(rt.alloc());
    put_user(rt.alloc(), &mut chronicle, ANN)?;
    put_user(rt.alloc(), &mut chronicle, BOB)?;
    put_user(rt.alloc(), &mut chronicle, ANN)?;
    Ok(counts::<Brand, HostRuntime>(&rt, rt.alloc(), &chronicle, Blank::new(1))?)
}

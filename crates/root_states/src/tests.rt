ghost use Rattle.login_base.specs.Steps.{IsBlank};

use crate::count::root_count;
use crate::{
    RootState, has_root_room, has_tab_room, is_standing, levels_of, outlived_sessions, root_state,
};
use facts::{Chronicle, Fact, Facts};
use login_base::{Id, Memory, Moment, RootKey, SessionId, Steps, TabKey, UserId, discard, same_id};
use std::alloc::Global;
use std::marker::Brand;
use std::process::Abort;
use std::sync::ledger::{Blank, Ledger};
use std::test::Fail;

/// Two roots of one serial.
const HOME: RootKey = RootKey(Id {
    serial: 3,
    high: 10,
    low: 0,
});

const AWAY: RootKey = RootKey(Id {
    serial: 3,
    high: 20,
    low: 0,
});

const FIRST: SessionId = SessionId(Id {
    serial: 7,
    high: 10,
    low: 0,
});

const SECOND: SessionId = SessionId(Id {
    serial: 8,
    high: 10,
    low: 0,
});

const THIRD: SessionId = SessionId(Id {
    serial: 9,
    high: 10,
    low: 0,
});

/// A fact to be made, at a moment in milliseconds.
#[derive(Clone, Copy)]
enum Made {
    /// A tab that lives for ten seconds.
    Opened(RootKey, u64),
    /// A session that lives for ten seconds without use, and for twenty at most.
    Session(SessionId, Option<RootKey>, u64),
    Seen(SessionId, u64),
    Level(SessionId, u32, u64),
    End(SessionId),
}

fn fact_of(made: Made) -> Fact {
    match made {
        Made::Opened(root, moment) => Fact::Opened {
            root,
            tab: TabKey(HOME.0),
            version: 1,
            level: 0,
            life: 10_000,
            moment: Moment::clamped(moment),
        },
        Made::Session(session, root, moment) => Fact::Session {
            session,
            root,
            user: UserId(4),
            moment: Moment::clamped(moment),
            idle: 10,
            max: 20,
        },
        Made::Seen(session, moment) => Fact::Seen {
            session,
            moment: Moment::clamped(moment),
        },
        Made::Level(session, level, moment) => Fact::Level {
            session,
            level,
            moment: Moment::clamped(moment),
        },
        Made::End(session) => Fact::SessionEnd { session },
    }
}

/// Adds a fact to a chronicle.
fn add(chronicle: &mut Chronicle, made: Made) -> Result<(), Memory> {
    let facts = [fact_of(made)];
    let reserved = chronicle.reserve(&facts);
    discard(facts);
    reserved?;
    chronicle.add();
    Ok(())
}

/// A fact, a moment, how many tabs of `HOME` are known then, whether it has a live session, and how
/// many roots are known.
type Row = (Made, u64, u32, bool, usize);

const HISTORY: [Row; 10] = [
    (Made::Opened(AWAY, 0), 1_000, 0, false, 2),
    (Made::Opened(HOME, 1_000), 1_000, 1, false, 3),
    (Made::Opened(HOME, 2_000), 19_999, 2, false, 2),
    (Made::Session(FIRST, None, 3_000), 20_000, 2, false, 1),
    (Made::Session(FIRST, Some(HOME), 13_000), 21_000, 1, true, 1),
    (
        Made::Session(SECOND, Some(AWAY), 13_000),
        22_000,
        0,
        true,
        2,
    ),
    (Made::Seen(SECOND, 22_000), 23_000, 0, false, 1),
    (Made::Seen(FIRST, 22_000), 23_000, 0, true, 2),
    (Made::End(SECOND), 23_000, 0, true, 1),
    (Made::End(FIRST), 23_000, 0, false, 0),
];

fn state<L: Ledger>(chronicle: &Chronicle, now: Moment, blank: Blank) -> RootState
    requires blank { IsBlank blank L.name L.parts }
{
    let mut steps = Steps::<L>::new(blank);
    root_state(&Facts::of(chronicle), HOME, now, &mut steps)
}

/// How many roots are known, where a third one has a session, behind the chronicle, that lives for
/// ten seconds. There is room.
fn roots<L: Ledger, R: Abort>(
    rt: &R,
    alloc: Global,
    chronicle: &Chronicle,
    now: Moment,
    blank: Blank,
) -> Result<usize, Memory>
    requires blank { IsBlank blank L.name L.parts }
{
    let mut steps = Steps::<L>::new(blank);
    let more = [fact_of(Made::Session(THIRD, Some(RootKey(THIRD.0)), 0))];
    let facts = Facts::with(chronicle, &more);
    let count = root_count(alloc, &facts, now, &mut steps);
    let room = has_root_room(alloc, &facts, now, &mut steps);
    assert!(rt; has_tab_room(&facts, now, &mut steps));
    discard(more);
    assert!(rt; room?);
    count
}

#[test]
fn each_fact_leaves_a_root(rt: HostRuntime) -> Result<(), Fail> {
    let mut chronicle = Chronicle::make(rt.alloc());
    for (row, (made, now, tabs, live, known)) in HISTORY.iter().enumerate() {
        let now = Moment::clamped(*now);
        add(&mut chronicle, *made)?;
        let state = state::<Brand>(&chronicle, now, Blank::new(1));
        assert_eq!(rt; state.tabs, *tabs, "row {row}");
        assert_eq!(rt; state.live_session(now).is_some(), *live, "row {row}");
        assert_eq!(rt; state.is_known(now), *tabs > 0 || *live, "row {row}");
        let roots = roots::<Brand, HostRuntime>(&rt, rt.alloc(), &chronicle, now, Blank::new(1))?;
        assert_eq!(rt; roots, *known, "row {row}");
    }
    Ok(())
}

/// The first session stands, and is outlived; the second one is ended behind the chronicle.
fn says_of_sessions<L: Ledger, R: Abort>(
    rt: &R,
    alloc: Global,
    chronicle: &Chronicle,
    blank: Blank,
) -> Result<(), Memory>
    requires blank { IsBlank blank L.name L.parts }
{
    let mut steps = Steps::<L>::new(blank);
    let more = [
        fact_of(Made::Level(FIRST, 2, 5_000)),
        fact_of(Made::End(SECOND)),
    ];
    let facts = Facts::with(chronicle, &more);
    let now = Moment::clamped(15_000);
    assert!(rt; is_standing(&facts, FIRST, &mut steps));
    assert!(rt; !is_standing(&facts, SECOND, &mut steps));
    assert!(rt; !is_standing(&facts, THIRD, &mut steps));
    let ended = outlived_sessions(alloc, &facts, now, &mut steps);
    let levels = levels_of(alloc, &facts, FIRST, &mut steps);
    discard(more);
    let (ended, levels) = (ended?, levels?);
    assert_eq!(rt; ended.len(), 1);
    assert!(rt; matches!(ended.get(0), Some(session) if same_id(&session.0, &FIRST.0)));
    assert_eq!(rt; levels.as_slice(), [(1, 4_000), (2, 5_000)].as_slice());
    Ok(())
}

#[test]
fn sessions_stand_until_they_end(rt: HostRuntime) -> Result<(), Fail> {
    let mut chronicle = Chronicle::make(rt.alloc());
    for made in [
        Made::Session(FIRST, None, 4_000),
        Made::Level(FIRST, 1, 4_000),
        Made::Session(SECOND, None, 4_000),
        Made::Level(SECOND, 3, 4_000),
        Made::Seen(FIRST, 5_000),
    ] {
        add(&mut chronicle, made)?;
    }
    Ok(says_of_sessions::<Brand, HostRuntime>(&rt, rt.alloc(), &chronicle, Blank::new(1))?)
}

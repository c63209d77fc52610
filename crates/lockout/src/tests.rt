ghost use Rattle.std.specs.Prelude.{◌≡◌, ◌≤◌, IsTrue, false};
ghost use Rattle.lockout.specs.Policy.{IsPolicy};

use crate::policy::{Mode, Policy};
use crate::standing::Standing;
use login_base::Moment;
use std::process::Abort;

const LOCKING: Policy = Policy {
    mode: Mode::Temporary,
    max_failures: 3,
    wait_increment: 60,
    max_wait: 900,
    failure_reset: 43_200,
    quick_check: 1_000,
    quick_wait: 60,
};

const CLOSING: Policy = Policy {
    mode: Mode::Permanent,
    ..LOCKING
};

const SHORT_LOCKING: Policy = Policy {
    max_wait: 10,
    ..LOCKING
};

const SHORT_CLOSING: Policy = Policy {
    max_wait: 10,
    ..CLOSING
};

const BRIEF_QUICK_WAIT: Policy = Policy {
    quick_wait: 5,
    ..LOCKING
};

const NO_QUICK_WAIT: Policy = Policy {
    quick_wait: 0,
    ..LOCKING
};

const NO_QUICK_WAIT_CLOSING: Policy = Policy {
    quick_wait: 0,
    ..CLOSING
};

const NO_QUICK_CHECK: Policy = Policy {
    quick_check: 0,
    ..LOCKING
};

const LEAST_QUICK_CHECK: Policy = Policy {
    quick_check: 1,
    ..LOCKING
};

const FORGETFUL: Policy = Policy {
    failure_reset: 1,
    quick_check: 60_000,
    ..LOCKING
};

const STRICT: Policy = Policy {
    max_failures: 1,
    ..LOCKING
};

const LONGEST: Policy = Policy {
    max_failures: 1,
    wait_increment: 86_400,
    max_wait: 86_400,
    ..LOCKING
};

const NO_FAILURES: Standing = Standing {
    count: 0,
    last: None,
    until: 0,
    permanent: false,
};

/// What is struck, under which policy, from which count, last moment and end of the lock, when,
/// and the count, the end of the lock and the permanence that come of it.
type Case = (
    &'static str,
    Policy,
    (u32, Option<u64>, u64),
    u64,
    (u32, u64, bool),
);

const CASES: [Case; 31] = [
    (
        "the first failure is no quick one",
        LOCKING,
        (0, None, 0),
        0,
        (1, 0, false),
    ),
    (
        "999 ms after the last is quick",
        LOCKING,
        (1, Some(0), 0),
        999,
        (2, 60_999, false),
    ),
    (
        "1,000 ms after the last is not quick",
        LOCKING,
        (1, Some(0), 0),
        1_000,
        (2, 0, false),
    ),
    (
        "the third locks for one increment",
        LOCKING,
        (2, Some(10_000), 0),
        20_000,
        (3, 80_000, false),
    ),
    (
        "the fourth locks for one increment too",
        LOCKING,
        (3, Some(20_000), 80_000),
        80_000,
        (4, 140_000, false),
    ),
    (
        "the sixth locks for two increments",
        LOCKING,
        (5, Some(0), 0),
        10_000,
        (6, 130_000, false),
    ),
    (
        "a count is kept for the reset time",
        LOCKING,
        (2, Some(10_000), 0),
        43_210_000,
        (3, 43_270_000, false),
    ),
    (
        "a count is forgotten a millisecond later",
        LOCKING,
        (2, Some(10_000), 0),
        43_210_001,
        (1, 0, false),
    ),
    (
        "the count rises to its end",
        LOCKING,
        (4_294_967_294, Some(0), 0),
        10_000,
        (4_294_967_295, 910_000, false),
    ),
    (
        "the count stays at its end",
        LOCKING,
        (4_294_967_295, Some(0), 0),
        10_000,
        (4_294_967_295, 910_000, false),
    ),
    (
        "increments as long as the longest wait",
        LOCKING,
        (44, Some(0), 0),
        10_000,
        (45, 910_000, false),
    ),
    (
        "the longest wait bounds increments",
        LOCKING,
        (47, Some(0), 0),
        10_000,
        (48, 910_000, false),
    ),
    (
        "the longest wait bounds the quick wait",
        SHORT_LOCKING,
        (1, Some(0), 0),
        1,
        (2, 10_001, false),
    ),
    (
        "an increment goes before the quick wait",
        BRIEF_QUICK_WAIT,
        (2, Some(0), 0),
        1,
        (3, 60_001, false),
    ),
    (
        "a quick wait of 0 locks nothing",
        NO_QUICK_WAIT,
        (1, Some(0), 0),
        1,
        (2, 0, false),
    ),
    (
        "with a quick check of 0 nothing is quick",
        NO_QUICK_CHECK,
        (1, Some(5), 0),
        5,
        (2, 0, false),
    ),
    (
        "the least quick check",
        LEAST_QUICK_CHECK,
        (1, Some(5), 0),
        5,
        (2, 60_005, false),
    ),
    (
        "a forgotten count still has its moment",
        FORGETFUL,
        (2, Some(0), 0),
        1_001,
        (1, 61_001, false),
    ),
    (
        "one failure may be enough",
        STRICT,
        (0, None, 0),
        0,
        (1, 60_000, false),
    ),
    (
        "an old lock doesn't stay",
        LOCKING,
        (1, Some(0), 50_000),
        60_000,
        (2, 0, false),
    ),
    (
        "the last moment and the longest lock",
        LONGEST,
        (0, None, 0),
        9_007_199_254_740_991,
        (1, 9_007_199_341_140_991, false),
    ),
    (
        "closing: as many as are allowed",
        CLOSING,
        (2, Some(10_000), 0),
        20_000,
        (3, 0, false),
    ),
    (
        "closing: one more",
        CLOSING,
        (3, Some(20_000), 0),
        30_000,
        (4, 0, true),
    ),
    (
        "closing: time forgets nothing",
        CLOSING,
        (2, Some(10_000), 0),
        43_210_001,
        (3, 0, false),
    ),
    (
        "closing: 999 ms after the last is quick",
        CLOSING,
        (1, Some(0), 0),
        999,
        (2, 60_999, false),
    ),
    (
        "closing: 1,000 ms is not quick",
        CLOSING,
        (1, Some(0), 0),
        1_000,
        (2, 0, false),
    ),
    (
        "closing: the quick wait has no bound",
        SHORT_CLOSING,
        (1, Some(0), 0),
        1,
        (2, 60_001, false),
    ),
    (
        "closing: a quick wait of 0",
        NO_QUICK_WAIT_CLOSING,
        (1, Some(7), 0),
        8,
        (2, 0, false),
    ),
    (
        "closing: a quick one that closes",
        CLOSING,
        (3, Some(20_000), 0),
        20_001,
        (4, 0, true),
    ),
    (
        "closing: an old lock doesn't stay",
        CLOSING,
        (1, Some(0), 50_000),
        60_000,
        (2, 0, false),
    ),
    (
        "closing: the count stays at its end",
        CLOSING,
        (4_294_967_295, Some(0), 0),
        10_000,
        (4_294_967_295, 0, true),
    ),
];

/// Whether a failure may be counted.
fn may_strike(standing: &Standing, policy: &Policy, now: Moment) -> bool
    ensures policy { IsTrue result → IsPolicy policy.now }
    ensures unlocked { IsTrue result → standing.now.until ≤ now }
    ensures open { IsTrue result → standing.now.permanent ≡ false }
{
    policy.is_valid() && !standing.locked(now) && !standing.permanent
}

fn strike(rt: &impl Abort, standing: &mut Standing, policy: &Policy, now: Moment) {
    assert!(rt; may_strike(standing, policy, now));
    standing.strike(policy, now);
}

#[test]
fn strikes_by_the_steps(rt: HostRuntime) {
    for (name, policy, (count, last, until), now, after) in CASES {
        let now = Moment::clamped(now);
        let last = last.map(Moment::clamped);
        let mut standing = Standing {
            count,
            last,
            until,
            permanent: false,
        };
        strike(&rt, &mut standing, &policy, now);
        assert_eq!(rt; standing.last, Some(now), "{name}");
        assert_eq!(rt;
            (standing.count, standing.until, standing.permanent),
            after,
            "{name}"
        );
    }
}

#[test]
fn strikes_one_after_another(rt: HostRuntime) {
    let runs = [
        (
            "a quick second failure",
            LOCKING,
            [0, 999].as_slice(),
            (2, 60_999, false),
        ),
        (
            "a slow second failure",
            LOCKING,
            [0, 1_000].as_slice(),
            (2, 0, false),
        ),
        (
            "three slow failures",
            LOCKING,
            [0, 10_000, 20_000].as_slice(),
            (3, 80_000, false),
        ),
        (
            "a fourth at the end of the lock",
            LOCKING,
            [0, 10_000, 20_000, 80_000].as_slice(),
            (4, 140_000, false),
        ),
        (
            "three where they close",
            CLOSING,
            [0, 10_000, 20_000].as_slice(),
            (3, 0, false),
        ),
        (
            "four where they close",
            CLOSING,
            [0, 10_000, 20_000, 30_000].as_slice(),
            (4, 0, true),
        ),
    ];
    for (name, policy, moments, after) in runs {
        let mut standing = NO_FAILURES;
        for &now in moments {
            strike(&rt, &mut standing, &policy, Moment::clamped(now));
        }
        assert_eq!(rt;
            (standing.count, standing.until, standing.permanent),
            after,
            "{name}"
        );
    }
}

#[test]
fn clears_and_tells_locked(rt: HostRuntime) {
    let mut standing = Standing {
        count: 4,
        last: Some(Moment::clamped(80_000)),
        until: 140_000,
        permanent: true,
    };
    assert!(rt; standing.locked(Moment::clamped(139_999)));
    assert!(rt; !standing.locked(Moment::clamped(140_000)));
    standing.clear();
    assert_eq!(rt; standing, NO_FAILURES);
    assert_eq!(rt; Standing::default(), NO_FAILURES);
    assert!(rt; !standing.locked(Moment::ZERO));
}

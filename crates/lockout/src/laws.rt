//! What the rule comes to. Each function does nothing: its contract is a law. A `standing` is any
//! standing, so that a law of one failure holds after every history.
ghost use Rattle.std.specs.Prelude.{◌≡◌, ◌+◌, ◌*◌, ◌<◌, ◌↔◌, IsTrue, false, true, length, max};
ghost use Rattle.lockout.specs.Policy.{IsPolicy};
ghost use Rattle.lockout.specs.Standing.{is_locked, is_quick, no_failures, standing_after, struck};

use crate::policy::{Mode, Policy};
use crate::standing::Standing;

/// After its last failure an account is locked for less than the greater of `max_wait` and
/// `quick_wait`, whatever its standing was before.
#[tactic(auto, using(crate::proofs::Struck::last_moment, crate::proofs::Struck::lock_ends))]
pub fn lock_is_bounded(policy: Policy, standing: Standing, now: u64, later: u64)
    ensures last { (struck policy now standing).last ≡ Some now }
    ensures bound { IsTrue (is_locked (struck policy now standing) later)
        → later < now + 1000 * max policy.max_wait policy.quick_wait }
{}

/// A failure that leaves the count below `max_failures` locks nothing, unless the quick check
/// does.
#[tactic(auto, using(crate::proofs::Struck::few_open))]
pub fn count_below_max_locks_nothing(policy: Policy, standing: Standing, now: u64, later: u64)
    requires few { (struck policy now standing).count < policy.max_failures }
    requires slow { is_quick policy now standing.last ≡ false }
    ensures unlocked { is_locked (struck policy now standing) later ≡ false }
{}

/// Without a quick check, fewer failures than `max_failures` lock nothing.
#[tactic(auto, using(crate::proofs::History::open_below))]
pub fn few_failures_lock_nothing(policy: Policy, moments: &[u64], later: u64)
    requires few { length moments.now < policy.max_failures }
    requires off { policy.quick_check ≡ 0 }
    ensures unlocked { is_locked (standing_after policy no_failures moments.now) later ≡ false }
{}

/// In the permanent mode an account is closed by exactly the failure past `max_failures`.
#[tactic(auto, using(crate::proofs::History::closed_past))]
pub fn closes_past_max(policy: Policy, moments: &[u64])
    requires policy { IsPolicy policy }
    requires mode { policy.mode ≡ Mode.Permanent }
    ensures closed { IsTrue (standing_after policy no_failures moments.now).permanent
        ↔ (policy.max_failures < length moments.now) }
{}

/// In the temporary mode no failure closes an account for good.
#[tactic(auto, using(crate::proofs::Struck::temporary_closes_nothing))]
pub fn temporary_closes_nothing(policy: Policy, standing: Standing, now: u64)
    requires mode { policy.mode ≡ Mode.Temporary }
    ensures same { (struck policy now standing).permanent ≡ standing.permanent }
{}

/// No failure opens an account that was closed for good.
#[tactic(auto, using(crate::proofs::Struck::stays_closed))]
pub fn failures_open_nothing(policy: Policy, standing: Standing, now: u64)
    requires closed { standing.permanent ≡ true }
    ensures closed { (struck policy now standing).permanent ≡ true }
{}

ghost use Rattle.std.specs.Prelude.{◌≡◌, ◌-◌, ◌<◌, ◌≤◌, ◌↔◌, IsTrue, false};

use crate::policy::{Mode, Policy};
use login_base::Moment;

/// What the failures of an account have come to. `Standing::default()` has none.
#[derive(Clone, Copy, Debug, Default, PartialEq, Eq)]
pub struct Standing {
    /// Failures that count, `u32::MAX` at most.
    pub count: u32,
    /// The moment of the last failure.
    pub last: Option<Moment>,
    /// When the lock ends, in milliseconds, maybe past the last moment; 0 where the last failure locked nothing.
    pub until: u64,
    /// Whether failures closed the account for good, until it is cleared.
    pub permanent: bool,
}

/// The milliseconds from one moment to another, none where that isn't later.
fn since(last: Moment, now: Moment) -> u64
    ensures value { result ≡ now - last }
{
    now.millis().saturating_sub(last.millis())
}

impl Standing {
    ghost use Rattle.lockout.specs.Policy.{IsPolicy};
    ghost use Rattle.lockout.specs.Standing.{is_forgotten, is_locked, is_quick, no_failures, struck, struck_permanent, struck_temporary};

    /// The standing after a failure at `now`, whatever was before it.
    #[tactic(auto, unfolding(crate::specs::Standing::struck))]
    pub fn struck_by(&self, policy: &Policy, now: Moment) -> Standing
        requires policy { IsPolicy policy.now }
        ensures value { result ≡ struck policy.now now self.now }
    {
        match policy.mode {
            Mode::Temporary => self.struck_temporary(policy, now),
            Mode::Permanent => self.struck_permanent(policy, now),
        }
    }

    #[tactic(auto, unfolding(crate::specs::Standing::struck_temporary))]
    fn struck_temporary(&self, policy: &Policy, now: Moment) -> Standing
        requires policy { IsPolicy policy.now }
        ensures value { result ≡ struck_temporary policy.now now self.now }
    {
        let remembered = if self.is_forgotten(policy, now) {
            0
        } else {
            self.count
        };
        let count = remembered.saturating_add(1);
        let increments = policy.wait_increment * (u64::from(count) / policy.max_failures);
        let wait = if increments == 0 && self.is_quick(policy, now) {
            policy.quick_wait
        } else {
            increments
        };
        let until = if wait == 0 {
            0
        } else {
            now.millis() + 1000 * wait.min(policy.max_wait)
        };
        Standing {
            count,
            last: Some(now),
            until,
            permanent: self.permanent,
        }
    }

    #[tactic(auto, unfolding(crate::specs::Standing::struck_permanent))]
    fn struck_permanent(&self, policy: &Policy, now: Moment) -> Standing
        requires policy { IsPolicy policy.now }
        ensures value { result ≡ struck_permanent policy.now now self.now }
    {
        let wait = if self.is_quick(policy, now) {
            policy.quick_wait
        } else {
            0
        };
        let count = self.count.saturating_add(1);
        let past = u64::from(count) > policy.max_failures;
        let until = if past || wait == 0 {
            0
        } else {
            now.millis() + 1000 * wait
        };
        Standing {
            count,
            last: Some(now),
            until,
            permanent: self.permanent || past,
        }
    }

    fn is_forgotten(&self, policy: &Policy, now: Moment) -> bool
        requires policy { IsPolicy policy.now }
        ensures value { result ≡ is_forgotten policy.now now self.now.last }
    {
        self.last
            .is_some_and(|last| since(last, now) > 1000 * policy.failure_reset)
    }

    fn is_quick(&self, policy: &Policy, now: Moment) -> bool
        ensures value { result ≡ is_quick policy.now now self.now.last }
    {
        self.last
            .is_some_and(|last| since(last, now) < policy.quick_check)
    }

    /// Counts a failure. A locked or closed account takes none: its logins are refused before
    /// they are checked.
    pub fn strike(&mut self, policy: &Policy, now: Moment)
        requires policy { IsPolicy policy.now }
        requires unlocked { self.old.until ≤ now }
        requires open { self.old.permanent ≡ false }
        ensures after { self.new ≡ struck policy.now now self.old }
    {
        *self = self.struck_by(policy, now);
    }

    /// Puts back the standing of an account with no failure, as a login or an administrator does.
    pub fn clear(&mut self)
        ensures after { self.new ≡ no_failures }
    {
        *self = Standing::default();
    }

    /// Whether the account is locked at `now`.
    pub fn locked(&self, now: Moment) -> bool
        ensures reply { result ≡ is_locked self.now now }
        ensures until { IsTrue result ↔ (now < self.now.until) }
    {
        now.millis() < self.until
    }
}

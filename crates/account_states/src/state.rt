ghost use Rattle.std.specs.Prelude.{◌≡◌, ◌==◌};
ghost use Rattle.account_states.specs.States.{is_closed_in, until_in, state_of};

use crate::failures::Failures;
use crate::policy::ValidPolicy;
use fact_scans::{FoldAbout, fold_by};
use facts::{Fact, Facts, Fold, Subject};
use lockout::Standing;
use login_base::{Moment, Steps, UserId};
use std::sync::ledger::Ledger;

/// How an account stands.
#[derive(Clone, Copy, Debug, PartialEq, Eq)]
pub struct AccountState {
    /// What its failures have come to.
    pub standing: Standing,
    /// Whether an administrator disabled it.
    pub disabled: bool,
}

impl AccountState {
    /// Whether its logins are refused until an administrator opens it.
    pub fn is_closed(&self) -> bool
        ensures value { result ≡ is_closed_in self.now }
    {
        self.standing.permanent || self.disabled
    }

    /// When its lock ends, in milliseconds, where it is locked at `now`.
    pub fn locked_until(&self, now: Moment) -> Option<u64>
        ensures value { result ≡ until_in now self.now }
    {
        if self.standing.locked(now) {
            Some(self.standing.until)
        } else {
            None
        }
    }
}

/// What is carried from fact to fact.
#[derive(Clone, Copy, Debug)]
pub struct Carried {
    pub failures: Failures,
    pub disabled: bool,
}

/// Carries how the account of a user stands.
#[derive(Clone, Copy, Debug)]
struct StateOf {
    user: UserId,
}

impl StateOf {
    fn is_own(&self, user: &UserId) -> bool
        ensures { result ≡ (user.now.0 == self.now.user.0) }
    {
        user.0 == self.user.0
    }
}

impl Fold for StateOf {
    ghost use Rattle.account_states.specs.Carrying.{carried_after};

    type Carried = Carried;

    ghost carry = { λ s. carried_after s.user };

    fn after(&self, carried: &mut Carried, fact: &Fact) {
        match fact {
            Fact::RealmPut { realm, .. } => carried.failures.policy = ValidPolicy::of(realm),
            Fact::Failed { user, moment } if self.is_own(user) => carried.failures.strike(*moment),
            Fact::Completed { user, .. } if self.is_own(user) => carried.failures.clear(),
            Fact::Standing { user, standing } if self.is_own(user) => {
                carried.failures.standing = *standing;
            }
            Fact::Enabled { user } if self.is_own(user) => {
                carried.failures.clear();
                carried.disabled = false;
            }
            Fact::Disabled { user } if self.is_own(user) => carried.disabled = true,
            _ => {}
        }
    }
}

impl FoldAbout for StateOf {
    ghost use Rattle.account_states.specs.About.{is_of_state, of_state};

    ghost about = { λ s. is_of_state s.user };

    fn is_about(&self, subject: Subject) -> bool {
        match subject {
            Subject::Realm => true,
            Subject::User(serial) | Subject::Login { user: serial, .. } => serial == self.user.0,
            _ => false,
        }
    }

    ghost only = { λ s. of_state s.user };
}

/// How the account of a user stands: one scan over the facts.
pub fn state_of<L: Ledger>(facts: &Facts<'_>, user: UserId, steps: &mut Steps<L>) -> AccountState
    ensures value { result ≡ state_of user facts.now }
{
    let start = Carried {
        failures: Failures::none(),
        disabled: false,
    };
    let carried = fold_by(facts, &StateOf { user }, start, steps);
    AccountState {
        standing: carried.failures.standing,
        disabled: carried.disabled,
    }
}

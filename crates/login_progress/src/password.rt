ghost use Rattle.std.specs.Prelude.{◌≡◌};
ghost use Rattle.login_progress.specs.PasswordFor.{password_for};

use fact_scans::password_of;
use facts::{Facts, UserPassword};
use login_base::{Steps, UserId};
use std::sync::ledger::Ledger;

/// The password that a user has, if there is a user.
#[tactic(auto, unfolding(crate::specs::PasswordFor::password_for))]
pub fn password_for<L: Ledger>(
    facts: &Facts<'_>,
    user: Option<UserId>,
    steps: &mut Steps<L>,
) -> Option<UserPassword>
    ensures value { result ≡ password_for facts.now user }
{
    match user {
        Some(user) => password_of(facts, user, steps),
        None => None,
    }
}

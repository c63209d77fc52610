ghost use Rattle.std.specs.Prelude.{◌≡◌, IfOk};
ghost use Rattle.admin_asks.specs.Roles.{answer_to_roles, if_made, check_made, due_roles};

use crate::named::{check_user, done};
use fact_scans::last_stored_serial;
use facts::{Fact, Facts};
use hall_answers::{Answer, Refusal, Setting, refused};
use login_base::{Duplicate, Memory, Name, Sequence, Steps, UserId};
use std::alloc::Global;
use std::sync::ledger::Ledger;

/// A user above the counter was never made.
fn if_made(facts: &Facts<'_>, user: UserId) -> Result<UserId, Refusal>
    ensures { result ≡ if_made facts.now user }
{
    if user.0 <= last_stored_serial(facts) {
        Ok(user)
    } else {
        Err(Refusal::NoSuchUser)
    }
}

/// An account has the name.
#[tactic(auto, unfolding(crate::specs::Roles::check_made))]
fn check_made<L: Ledger>(
    facts: &Facts<'_>,
    name: &Name,
    steps: &mut Steps<L>,
) -> Result<UserId, Refusal>
    ensures { result ≡ check_made facts.now name.now }
{
    let user = check_user(facts, name, steps)?;
    if_made(facts, user)
}

/// The user has these roles from now on, in the place of all that it had.
fn answer_to_roles(
    alloc: Global,
    name: &Name,
    roles: &Sequence<Name>,
    user: UserId,
) -> Result<Answer, Memory>
    ensures { IfOk result (λ answer. answer ≡ answer_to_roles name.now roles.now user) }
{
    let mut added = Sequence::new(alloc);
    added.push(Fact::UserPut {
        user,
        name: name.duplicate(alloc)?,
        roles: roles.duplicate(alloc)?,
    })?;
    done(alloc, name, added)
}

/// What the putting of roles is due.
#[tactic(auto, unfolding(crate::specs::Roles::due_roles))]
pub(crate) fn due_roles<L: Ledger>(
    setting: &Setting<'_>,
    name: &Name,
    roles: &Sequence<Name>,
    steps: &mut Steps<L>,
) -> Result<Answer, Memory>
    ensures { IfOk result (λ answer. answer ≡ due_roles setting.now name.now roles.now) }
{
    let facts = setting.facts();
    match check_made(&facts, name, steps) {
        Ok(user) => answer_to_roles(setting.alloc, name, roles, user),
        Err(refusal) => refused(setting.alloc, &facts, None, refusal, steps),
    }
}

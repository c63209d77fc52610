ghost use Rattle.std.specs.Prelude.{◌≡◌, IfOk};
ghost use Rattle.admin_asks.specs.Closing.{answer_to_enable, due_enable, answer_to_disable, due_disable, if_open, check_open, due_unlock};

use crate::named::{check_user, done};
use account_states::state_of;
use facts::{Fact, Facts};
use hall_answers::{Answer, Refusal, Setting, refused};
use login_base::{Memory, Name, Sequence, Steps, UserId};
use std::alloc::Global;
use std::sync::ledger::Ledger;

/// The account isn't disabled any more, and its failures are forgotten.
fn answer_to_enable(alloc: Global, name: &Name, user: UserId) -> Result<Answer, Memory>
    ensures { IfOk result (λ answer. answer ≡ answer_to_enable name.now user) }
{
    let mut added = Sequence::new(alloc);
    added.push(Fact::Enabled { user })?;
    done(alloc, name, added)
}

/// What it is due to enable an account.
#[tactic(auto, unfolding(crate::specs::Closing::due_enable))]
pub(crate) fn due_enable<L: Ledger>(
    setting: &Setting<'_>,
    name: &Name,
    steps: &mut Steps<L>,
) -> Result<Answer, Memory>
    ensures { IfOk result (λ answer. answer ≡ due_enable setting.now name.now) }
{
    let facts = setting.facts();
    match check_user(&facts, name, steps) {
        Ok(user) => answer_to_enable(setting.alloc, name, user),
        Err(refusal) => refused(setting.alloc, &facts, None, refusal, steps),
    }
}

/// The account is disabled until it is enabled.
fn answer_to_disable(alloc: Global, name: &Name, user: UserId) -> Result<Answer, Memory>
    ensures { IfOk result (λ answer. answer ≡ answer_to_disable name.now user) }
{
    let mut added = Sequence::new(alloc);
    added.push(Fact::Disabled { user })?;
    done(alloc, name, added)
}

/// What it is due to disable an account.
#[tactic(auto, unfolding(crate::specs::Closing::due_disable))]
pub(crate) fn due_disable<L: Ledger>(
    setting: &Setting<'_>,
    name: &Name,
    steps: &mut Steps<L>,
) -> Result<Answer, Memory>
    ensures { IfOk result (λ answer. answer ≡ due_disable setting.now name.now) }
{
    let facts = setting.facts();
    match check_user(&facts, name, steps) {
        Ok(user) => answer_to_disable(setting.alloc, name, user),
        Err(refusal) => refused(setting.alloc, &facts, None, refusal, steps),
    }
}

/// The account isn't closed.
fn if_open<L: Ledger>(
    facts: &Facts<'_>,
    user: UserId,
    steps: &mut Steps<L>,
) -> Result<UserId, Refusal>
    ensures { result ≡ if_open facts.now user }
{
    if state_of(facts, user, steps).is_closed() {
        return Err(Refusal::AccountDisabled);
    }
    Ok(user)
}

/// The account of this name, which isn't closed.
#[tactic(auto, unfolding(crate::specs::Closing::check_open))]
fn check_open<L: Ledger>(
    facts: &Facts<'_>,
    name: &Name,
    steps: &mut Steps<L>,
) -> Result<UserId, Refusal>
    ensures { result ≡ check_open facts.now name.now }
{
    let user = check_user(facts, name, steps)?;
    if_open(facts, user, steps)
}

/// What it is due to unlock an account: its failures are forgotten where it isn't closed.
#[tactic(auto, unfolding(crate::specs::Closing::due_unlock))]
pub(crate) fn due_unlock<L: Ledger>(
    setting: &Setting<'_>,
    name: &Name,
    steps: &mut Steps<L>,
) -> Result<Answer, Memory>
    ensures { IfOk result (λ answer. answer ≡ due_unlock setting.now name.now) }
{
    let facts = setting.facts();
    match check_open(&facts, name, steps) {
        Ok(user) => answer_to_enable(setting.alloc, name, user),
        Err(refusal) => refused(setting.alloc, &facts, None, refusal, steps),
    }
}

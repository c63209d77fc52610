ghost use Rattle.std.specs.Prelude.{◌≡◌, IfOk};
ghost use Rattle.admin_asks.specs.OtpRemove.{if_there, check_there, removal, answer_to_otp_remove, due_otp_remove};

use crate::named::{check_user, done};
use fact_scans::otp_of;
use facts::{Fact, Facts, Secret, SecretKind};
use hall_answers::{Answer, Refusal, Setting, refused};
use login_base::{Memory, Name, Sequence, Steps, UserId};
use std::alloc::Global;
use std::sync::ledger::Ledger;

/// The user has a secret of one-time codes.
fn if_there<L: Ledger>(
    facts: &Facts<'_>,
    user: UserId,
    steps: &mut Steps<L>,
) -> Result<UserId, Refusal>
    ensures { result ≡ if_there facts.now user }
{
    if otp_of(facts, user, steps).is_some() {
        Ok(user)
    } else {
        Err(Refusal::NothingThere)
    }
}

/// An account has the name, and a secret of one-time codes.
#[tactic(auto, unfolding(crate::specs::OtpRemove::check_there))]
fn check_there<L: Ledger>(
    facts: &Facts<'_>,
    name: &Name,
    steps: &mut Steps<L>,
) -> Result<UserId, Refusal>
    ensures { result ≡ check_there facts.now name.now }
{
    let user = check_user(facts, name, steps)?;
    if_there(facts, user, steps)
}

fn removal(user: UserId) -> Fact
    ensures { result ≡ removal user }
{
    Fact::SecretSet {
        user,
        kind: SecretKind::Otp,
        serial: 0,
        secret: Secret::Gone,
        by: None,
    }
}

/// The secret is gone.
fn answer_to_otp_remove(alloc: Global, name: &Name, user: UserId) -> Result<Answer, Memory>
    ensures { IfOk result (λ answer. answer ≡ answer_to_otp_remove name.now user) }
{
    let mut added = Sequence::new(alloc);
    added.push(removal(user))?;
    done(alloc, name, added)
}

/// What the taking away of a secret of one-time codes is due.
#[tactic(auto, unfolding(crate::specs::OtpRemove::due_otp_remove))]
pub(crate) fn due_otp_remove<L: Ledger>(
    setting: &Setting<'_>,
    name: &Name,
    steps: &mut Steps<L>,
) -> Result<Answer, Memory>
    ensures { IfOk result (λ answer. answer ≡ due_otp_remove setting.now name.now) }
{
    let facts = setting.facts();
    match check_there(&facts, name, steps) {
        Ok(user) => answer_to_otp_remove(setting.alloc, name, user),
        Err(refusal) => refused(setting.alloc, &facts, None, refusal, steps),
    }
}

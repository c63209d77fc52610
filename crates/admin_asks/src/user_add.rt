ghost use Rattle.std.specs.Prelude.{◌≡◌, ◌<◌, ◌≤◌, ◌-◌, ◌^◌, IfOk};
ghost use Rattle.hall_answers.specs.HasSerials.{HasSerials};
ghost use Rattle.hall_answers.specs.Passwords.{IsKeepable};
ghost use Rattle.admin_asks.specs.UserAdd.{check_name_free, check_room, check_new_user, user_text, answer_to_new_user, due_user_add};

use crate::account::add_account;
use crate::given_secrets::GivenSecrets;
use account_states::has_room;
use fact_scans::{account_named, last_stored_serial};
use facts::{Facts, Finding, NewUser, What};
use hall_answers::{Answer, Refusal, Setting, derived, refused};
use login_base::{Memory, Name, Sequence, Steps, UserId};
use std::alloc::Global;
use std::sync::ledger::Ledger;

/// No account has the name.
#[tactic(auto, unfolding(crate::specs::UserAdd::check_name_free))]
fn check_name_free<L: Ledger>(
    facts: &Facts<'_>,
    name: &Name,
    steps: &mut Steps<L>,
) -> Result<(), Refusal>
    ensures { result ≡ check_name_free facts.now name.now }
{
    if account_named(facts, name, steps).is_some() {
        return Err(Refusal::UserTaken);
    }
    Ok(())
}

/// There are fewer accounts than there may be.
#[tactic(auto, unfolding(crate::specs::UserAdd::check_room))]
fn check_room<L: Ledger>(
    alloc: Global,
    facts: &Facts<'_>,
    steps: &mut Steps<L>,
) -> Result<Result<(), Refusal>, Memory>
    ensures { IfOk result (λ room. room ≡ check_room facts.now) }
{
    if has_room(alloc, facts, steps)? {
        Ok(Ok(()))
    } else {
        Ok(Err(Refusal::TooManyUsers))
    }
}

/// The new account, or the first refusal.
#[tactic(auto, unfolding(crate::specs::UserAdd::check_new_user))]
fn check_new_user<L: Ledger>(
    alloc: Global,
    facts: &Facts<'_>,
    new: &NewUser,
    steps: &mut Steps<L>,
) -> Result<Result<UserId, Refusal>, Memory>
    requires serials { HasSerials facts.now (2 ^ 63 - 8) }
    ensures user { IfOk result (λ user. user ≡ check_new_user facts.now new.now) }
    ensures small { IfOk result (λ user. IfOk user (λ user. user.0 ≤ 2 ^ 63 - 7)) }
{
    if let Err(refusal) = check_name_free(facts, &new.name, steps) {
        return Ok(Err(refusal));
    }
    if let Err(refusal) = check_room(alloc, facts, steps)? {
        return Ok(Err(refusal));
    }
    Ok(Ok(UserId(last_stored_serial(facts) + 1)))
}

fn user_text(alloc: Global, name: &Name, user: UserId) -> Result<Sequence<u8>, Memory>
    ensures { IfOk result (λ text. text ≡ user_text name.now user) }
{
    let mut text = Vec::new(alloc);
    text.extend_from_slice(b"user name=")?;
    text.extend_from_slice(name.as_bytes())?;
    text.extend_from_slice(b" id=")?;
    let number = user.0.to_string(alloc)?;
    text.extend_from_slice(number.as_bytes())?;
    Ok(Sequence::from_vec(text))
}

/// The account is added, with the password, the secret of one-time codes and the actions that the
/// ask gives.
fn answer_to_new_user(
    alloc: Global,
    new: &NewUser,
    finding: &Finding,
    user: UserId,
) -> Result<Answer, Memory>
    requires keepable { IsKeepable finding.now }
    requires serial { user.0 < 2 ^ 64 - 4 }
    ensures { IfOk result (λ answer. answer ≡ answer_to_new_user new.now finding.now user) }
{
    let text = user_text(alloc, &new.name, user)?;
    let mut added = Sequence::new(alloc);
    let given = GivenSecrets {
        password: derived(finding),
        otp: &new.otp,
        recovery: &None,
    };
    add_account(
        alloc,
        &mut added,
        user,
        &new.name,
        &new.roles,
        true,
        &given,
        new.actions.as_slice(),
    )?;
    Ok(Answer::plain(What::Told { text }, added))
}

/// What the adding of a user is due.
#[tactic(auto, unfolding(crate::specs::UserAdd::due_user_add))]
pub(crate) fn due_user_add<L: Ledger>(
    setting: &Setting<'_>,
    new: &NewUser,
    finding: &Finding,
    steps: &mut Steps<L>,
) -> Result<Answer, Memory>
    requires serials { HasSerials setting.now.facts (2 ^ 63 - 8) }
    requires keepable { IsKeepable finding.now }
    ensures { IfOk result (λ answer. answer ≡ due_user_add setting.now new.now finding.now) }
{
    let facts = setting.facts();
    match check_new_user(setting.alloc, &facts, new, steps)? {
        Ok(user) => answer_to_new_user(setting.alloc, new, finding, user),
        Err(refusal) => refused(setting.alloc, &facts, None, refusal, steps),
    }
}

//! What the check of a post comes to.
ghost use Rattle.std.specs.Prelude.{◌≡◌, ◌-◌, ◌^◌, IfOk};
ghost use Rattle.hall_answers.specs.HasSerials.{HasSerials};
ghost use Rattle.tab_asks.specs.declared.check.Spent.TheVariants as spends;
ghost use Rattle.tab_asks.specs.Deeds.{deed_check};
ghost use Rattle.tab_asks.specs.Post.{password_check, name_check, check_of, check_form};

use crate::check::{Check, Credential, Spent};
use crate::codes::{code_check, setup_check};
use crate::form::{concerned, target_of};
use crate::gates::{check_asked, check_credential};
use facts::{Finding, Form, Need, UserPassword};
use hall_answers::{Refusal, Setting};
use login_base::{Memory, Steps, UserId};
use login_progress::{KnownTab, Progress, password_for};
use std::sync::ledger::Ledger;
use tab_pages::check_account;

/// The secret of a serial, of which nothing is used up.
fn unspent(serial: u64) -> Credential
    ensures { result ≡ record { serial = serial; spent = spends.Nothing } }
{
    Credential {
        serial,
        spent: Spent::Nothing,
    }
}

/// The user is there, has a password, and it fits.
#[tactic(auto, unfolding(crate::specs::Post::password_check))]
fn password_check(user: Option<UserId>, password: Option<UserPassword>, finding: &Finding) -> Check
    ensures { result ≡ password_check user password finding.now }
{
    match (user, password, finding) {
        (Some(user), Some(kept), Finding::Checked { fits: true, .. }) => Check::Fits {
            user,
            credential: unspent(kept.serial),
        },
        _ => Check::Wrong { user },
    }
}

/// A name alone has to be that of a user.
fn name_check(named: Option<UserId>) -> Check
    ensures { result ≡ name_check named }
{
    match named {
        Some(user) => Check::Fits {
            user,
            credential: unspent(0),
        },
        None => Check::Wrong { user: None },
    }
}

/// An action that takes no code is done by the user whose login it is.
fn deed_check(who: Option<UserId>) -> Check
    ensures { result ≡ deed_check who }
{
    match who {
        Some(user) => Check::Fits {
            user,
            credential: unspent(0),
        },
        None => Check::Wrong { user: None },
    }
}

/// What a form comes to, where `named` is whom it names, and `who` the one whose login it is.
fn check_of<L: Ledger>(
    setting: &Setting<'_>,
    known: &KnownTab,
    asked: &[Need],
    named: Option<UserId>,
    password: Option<UserPassword>,
    form: &Form,
    finding: &Finding,
    steps: &mut Steps<L>,
) -> Result<Check, Memory>
    requires serials { HasSerials setting.now.facts (2 ^ 63 - 8) }
    ensures { IfOk result (λ check. check ≡
        check_of setting.now known.now asked.now named password form.now finding.now) }
{
    let who = known.state.who(setting.moment);
    match form {
        Form::Username { .. } => Ok(name_check(named)),
        Form::Password { .. } => Ok(password_check(who, password, finding)),
        Form::NamePassword { .. } => Ok(password_check(named, password, finding)),
        Form::Value { execution, value } => {
            code_check(setting, asked, who, execution, value.as_slice(), steps)
        }
        Form::ConfigureOtp { value } => {
            setup_check(setting, &known.state.page, who, value.as_slice(), steps)
        }
        Form::Terms | Form::UpdatePassword { .. } | Form::RecoveryCodes => Ok(deed_check(who)),
        Form::VerifyEmail => Ok(Check::Wrong { user: None }),
    }
}

/// The check of a form that names this user, where the login has come so far, or the first refusal.
#[tactic(auto, unfolding(crate::specs::Post::check_form))]
pub(crate) fn check_form<L: Ledger>(
    setting: &Setting<'_>,
    known: &KnownTab,
    progress: &Progress,
    named: Option<UserId>,
    form: &Form,
    finding: &Finding,
    steps: &mut Steps<L>,
) -> Result<Result<Check, Refusal>, Memory>
    requires serials { HasSerials setting.now.facts (2 ^ 63 - 8) }
    ensures { IfOk result (λ check. check ≡ check_form setting.now known.now progress.now named form.now finding.now) }
{
    let facts = setting.facts();
    let who = known.state.who(setting.moment);
    if let Err(refusal) = check_asked(progress, &known.state.page, form) {
        return Ok(Err(refusal));
    }
    if let Err(refusal) = check_account(&facts, setting.moment, concerned(named, who), steps) {
        return Ok(Err(refusal));
    }
    let password = password_for(&facts, target_of(named, who, form), steps);
    if let Err(refusal) = check_credential(&password, finding) {
        return Ok(Err(refusal));
    }
    let asked = progress.asked();
    let check = check_of(setting, known, asked, named, password, form, finding, steps)?;
    Ok(Ok(check))
}

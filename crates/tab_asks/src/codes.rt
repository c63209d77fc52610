//! What a one-time code or a recovery code comes to.
ghost use Rattle.std.specs.Prelude.{◌≡◌, ◌-◌, ◌^◌, ◌<◌, Some, IfOk};
ghost use Rattle.facts.specs.Secrets.{otp_of, recovery_of};
ghost use Rattle.hall_answers.specs.HasSerials.{HasSerials};
ghost use Rattle.tab_asks.specs.Deeds.{uncounted, setup_check};
ghost use Rattle.tab_asks.specs.Codes.{step_check, otp_check, number_check, recovery_check, asks_recovery, code_check, HasNumber};

use crate::check::{Check, Credential, Spent};
use crate::deeds::new_serial;
use crate::form::is_need;
use fact_scans::{otp_of, recovery_of, spent_steps};
use facts::{Need, Page, UserOtp};
use flow_tree::Kind;
use hall_answers::Setting;
use login_base::{Memory, Name, Steps, UserId};
use login_progress::recovery_list;
use offers::offered_secret;
use one_time::{Verdict, check_totp};
use std::sync::ledger::Ledger;
use tab_pages::offer_on;

/// What the verdict on a one-time code comes to.
fn step_check(user: UserId, serial: u64, verdict: Verdict) -> Check
    ensures { result ≡ step_check user serial verdict }
{
    match verdict {
        Verdict::Fits(step) => Check::Fits {
            user,
            credential: Credential {
                serial,
                spent: Spent::Step(step),
            },
        },
        Verdict::Spent(step) => Check::SpentCode { step },
        Verdict::Wrong => Check::WrongCode { user: Some(user) },
    }
}

/// What a one-time code of this secret comes to, by the rule of the realm in force.
fn secret_check<L: Ledger>(
    setting: &Setting<'_>,
    user: UserId,
    kept: &UserOtp<'_>,
    value: &[u8],
    steps: &mut Steps<L>,
) -> Result<Check, Memory>
    ensures { IfOk result (λ check. check ≡ otp_check setting.now user (Some kept.now) value.now) }
{
    let rule = setting.realm.otp();
    let spent = spent_steps(setting.alloc, &setting.facts(), kept.serial, steps)?;
    let now = setting.moment.millis();
    let verdict = check_totp(
        kept.secret.key(),
        now,
        rule.window,
        rule.digits,
        spent.as_slice(),
        value,
    );
    Ok(step_check(user, kept.serial, verdict))
}

/// What a one-time code comes to.
fn otp_check<L: Ledger>(
    setting: &Setting<'_>,
    user: UserId,
    value: &[u8],
    steps: &mut Steps<L>,
) -> Result<Check, Memory>
    ensures { IfOk result (λ check. check ≡ otp_check setting.now user (otp_of user setting.now.facts) value.now) }
{
    match otp_of(&setting.facts(), user, steps) {
        Some(kept) => secret_check(setting, user, &kept, value, steps),
        None => Ok(Check::WrongCode { user: Some(user) }),
    }
}

/// A wrong code of an offered secret is no failure of the user's.
fn uncounted(check: Check) -> Check
    ensures { result ≡ uncounted check }
{
    match check {
        Check::WrongCode { .. } => Check::WrongCode { user: None },
        _ => check,
    }
}

/// What a code of the secret comes to that the page shown last offers, where `who` is the one whose
/// login it is. The secret is checked as one that has the next serial.
pub(crate) fn setup_check<L: Ledger>(
    setting: &Setting<'_>,
    page: &Option<Page>,
    who: Option<UserId>,
    value: &[u8],
    steps: &mut Steps<L>,
) -> Result<Check, Memory>
    requires serials { HasSerials setting.now.facts (2 ^ 63 - 8) }
    ensures { IfOk result (λ check. check ≡ setup_check setting.now page.now who value.now) }
{
    let Some(user) = who else {
        return Ok(Check::WrongCode { user: None });
    };
    let secret = offered_secret(setting.alloc, &offer_on(page))?;
    let offered = UserOtp {
        serial: new_serial(setting),
        secret: &secret,
    };
    let check = secret_check(setting, user, &offered, value, steps)?;
    Ok(uncounted(check))
}

/// What the verdict on a recovery code comes to.
fn number_check(user: UserId, serial: u64, verdict: Verdict) -> Check
    requires number { HasNumber verdict }
    ensures { result ≡ number_check user serial verdict }
{
    match verdict {
        Verdict::Fits(number) => Check::Fits {
            user,
            credential: Credential {
                serial,
                spent: Spent::Number(number as u32),
            },
        },
        Verdict::Spent(number) => Check::SpentCode { step: number },
        Verdict::Wrong => Check::WrongCode { user: Some(user) },
    }
}

/// What a recovery code comes to.
fn recovery_check<L: Ledger>(
    setting: &Setting<'_>,
    user: UserId,
    value: &[u8],
    steps: &mut Steps<L>,
) -> Result<Check, Memory>
    ensures { IfOk result (λ check. check ≡
        recovery_check setting.now user (recovery_of user setting.now.facts) value.now) }
{
    let facts = setting.facts();
    let Some(kept) = recovery_of(&facts, user, steps) else {
        return Ok(Check::WrongCode { user: Some(user) });
    };
    let list = recovery_list(setting.alloc, &facts, &kept, steps)?;
    Ok(number_check(user, kept.serial, list.check(value)))
}

/// Whether an execution asks a recovery code.
fn asks_recovery(asked: &[Need], execution: &Name) -> bool
    ensures { result ≡ asks_recovery asked.now execution.now }
{
    asked
        .iter()
        .any(|need| is_need(need, execution, Kind::Recovery))
}

/// What a code comes to for an execution that is asked, where `who` is the one whose login it is.
#[tactic(auto, unfolding(crate::specs::Codes::code_check))]
pub(crate) fn code_check<L: Ledger>(
    setting: &Setting<'_>,
    asked: &[Need],
    who: Option<UserId>,
    execution: &Name,
    value: &[u8],
    steps: &mut Steps<L>,
) -> Result<Check, Memory>
    ensures { IfOk result (λ check. check ≡ code_check setting.now asked.now who execution.now value.now) }
{
    let Some(user) = who else {
        return Ok(Check::WrongCode { user: None });
    };
    if asks_recovery(asked, execution) {
        recovery_check(setting, user, value, steps)
    } else {
        otp_check(setting, user, value, steps)
    }
}

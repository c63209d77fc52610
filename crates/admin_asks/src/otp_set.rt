ghost use Rattle.std.specs.Prelude.{◌≡◌, ◌-◌, ◌^◌, Some, IfOk};
ghost use Rattle.hall_answers.specs.HasSerials.{HasSerials};
ghost use Rattle.admin_asks.specs.OtpSet.{answer_to_otp_set, due_otp_set};

use crate::account::add_secret;
use crate::named::{check_user, done};
use fact_scans::last_stored_serial;
use facts::{Facts, OtpSecret};
use hall_answers::{Answer, Setting, refused};
use login_base::{Memory, Name, Sequence, Steps, UserId};
use std::alloc::Global;
use std::sync::ledger::Ledger;

/// The secret is the user's from now on, with the next serial.
fn answer_to_otp_set(
    alloc: Global,
    facts: &Facts<'_>,
    name: &Name,
    secret: &OtpSecret,
    user: UserId,
) -> Result<Answer, Memory>
    requires serials { HasSerials facts.now (2 ^ 63 - 8) }
    ensures { IfOk result (λ answer. answer ≡ answer_to_otp_set facts.now name.now secret.now user) }
{
    let mut added = Sequence::new(alloc);
    add_secret(
        alloc,
        &mut added,
        user,
        last_stored_serial(facts) + 1,
        secret,
    )?;
    done(alloc, name, added)
}

/// What the setting of a secret of one-time codes is due.
#[tactic(auto, unfolding(crate::specs::OtpSet::due_otp_set))]
pub(crate) fn due_otp_set<L: Ledger>(
    setting: &Setting<'_>,
    name: &Name,
    secret: &OtpSecret,
    steps: &mut Steps<L>,
) -> Result<Answer, Memory>
    requires serials { HasSerials setting.now.facts (2 ^ 63 - 8) }
    ensures { IfOk result (λ answer. answer ≡ due_otp_set setting.now name.now secret.now) }
{
    let facts = setting.facts();
    match check_user(&facts, name, steps) {
        Ok(user) => answer_to_otp_set(setting.alloc, &facts, name, secret, user),
        Err(refusal) => refused(setting.alloc, &facts, None, refusal, steps),
    }
}

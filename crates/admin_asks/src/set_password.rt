ghost use Rattle.std.specs.Prelude.{◌≡◌, ◌-◌, ◌^◌, IfOk};
ghost use Rattle.hall_answers.specs.HasSerials.{HasSerials};
ghost use Rattle.hall_answers.specs.Passwords.{IsKeepable};
ghost use Rattle.admin_asks.specs.SetPassword.{answer_to_set_password, due_set_password};

use crate::named::{check_user, done};
use fact_scans::last_stored_serial;
use facts::{Facts, Finding};
use hall_answers::{Answer, Setting, add_password, derived, refused};
use login_base::{Memory, Name, Sequence, Steps, UserId};
use std::alloc::Global;
use std::sync::ledger::Ledger;

/// The derived password is the user's from now on, with the next serial.
fn answer_to_set_password(
    alloc: Global,
    facts: &Facts<'_>,
    name: &Name,
    finding: &Finding,
    user: UserId,
) -> Result<Answer, Memory>
    requires serials { HasSerials facts.now (2 ^ 63 - 8) }
    requires keepable { IsKeepable finding.now }
    ensures { IfOk result (λ answer. answer ≡ answer_to_set_password facts.now name.now finding.now user) }
{
    let mut added = Sequence::new(alloc);
    let password = derived(finding);
    add_password(
        &mut added,
        user,
        last_stored_serial(facts) + 1,
        &password,
        None,
    )?;
    done(alloc, name, added)
}

/// What the setting of a password is due.
#[tactic(auto, unfolding(crate::specs::SetPassword::due_set_password))]
pub(crate) fn due_set_password<L: Ledger>(
    setting: &Setting<'_>,
    name: &Name,
    finding: &Finding,
    steps: &mut Steps<L>,
) -> Result<Answer, Memory>
    requires serials { HasSerials setting.now.facts (2 ^ 63 - 8) }
    requires keepable { IsKeepable finding.now }
    ensures { IfOk result (λ answer. answer ≡ due_set_password setting.now name.now finding.now) }
{
    let facts = setting.facts();
    match check_user(&facts, name, steps) {
        Ok(user) => answer_to_set_password(setting.alloc, &facts, name, finding, user),
        Err(refusal) => refused(setting.alloc, &facts, None, refusal, steps),
    }
}

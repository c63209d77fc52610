//! What an accepted action does.
ghost use Rattle.std.specs.Prelude.{◌≡◌, ◌-◌, ◌^◌, ◌++◌, IfOk, OnOk};
ghost use Rattle.hall_answers.specs.HasSerials.{HasSerials};
ghost use Rattle.hall_answers.specs.Passwords.{IsKeepable};
ghost use Rattle.tab_asks.specs.Deeds.{new_serial, done_facts, step_used, secret_deed, codes_deed, deed_facts};

use crate::check::Spent;
use fact_scans::{last_stored_serial, realm_of};
use facts::{Action, Fact, Finding, Form, Secret, SecretKind};
use hall_answers::{Setting, add_password, derived};
use login_base::{Memory, Sequence, Steps, UserId};
use login_progress::KnownTab;
use offers::{offered_digests, offered_secret};
use std::sync::ledger::Ledger;
use tab_pages::offer_on;

/// The serial of a secret that is set.
pub(crate) fn new_serial(setting: &Setting<'_>) -> u64
    requires serials { HasSerials setting.now.facts (2 ^ 63 - 8) }
    ensures { result ≡ new_serial setting.now }
{
    last_stored_serial(&setting.facts()) + 1
}

/// Adds that the user has done the action.
fn add_done(added: &mut Sequence<Fact>, user: UserId, kind: Action) -> Result<(), Memory>
    ensures { OnOk result (added.new ≡ added.old ++ done_facts user kind) }
{
    added.push(Fact::ActionDone { user, kind })
}

/// Adds that the code of a time step is used up.
fn add_step(added: &mut Sequence<Fact>, credential: u64, spent: Spent) -> Result<(), Memory>
    ensures { OnOk result (added.new ≡ added.old ++ step_used credential spent) }
{
    match spent {
        Spent::Step(step) => added.push(Fact::SpentStep { credential, step }),
        Spent::Nothing | Spent::Number(_) => Ok(()),
    }
}

/// Adds that the offered secret of one-time codes is the user's from now on.
fn add_secret(
    added: &mut Sequence<Fact>,
    setting: &Setting<'_>,
    known: &KnownTab,
    user: UserId,
) -> Result<(), Memory>
    requires serials { HasSerials setting.now.facts (2 ^ 63 - 8) }
    ensures { OnOk result (added.new ≡ added.old ++ secret_deed setting.now known.now user) }
{
    let secret = offered_secret(setting.alloc, &offer_on(&known.state.page))?;
    added.push(Fact::SecretSet {
        user,
        kind: SecretKind::Otp,
        serial: new_serial(setting),
        secret: Secret::Otp { secret },
        by: Some(known.tab),
    })
}

/// Adds that the offered recovery codes are the user's from now on: as many as the realm gives with
/// which the tab was opened.
fn add_codes<L: Ledger>(
    added: &mut Sequence<Fact>,
    setting: &Setting<'_>,
    known: &KnownTab,
    user: UserId,
    steps: &mut Steps<L>,
) -> Result<(), Memory>
    requires serials { HasSerials setting.now.facts (2 ^ 63 - 8) }
    ensures { OnOk result (added.new ≡ added.old ++ codes_deed setting.now known.now user) }
{
    let facts = setting.facts();
    let Some(realm) = realm_of(&facts, known.opening.version, steps) else {
        return Ok(());
    };
    let offer = offer_on(&known.state.page);
    let digests = offered_digests(setting.alloc, &offer, realm.recovery_count())?;
    added.push(Fact::SecretSet {
        user,
        kind: SecretKind::Recovery,
        serial: new_serial(setting),
        secret: Secret::Recovery { digests },
        by: Some(known.tab),
    })
}

/// What the action of an accepted form does: nothing, where it is the form of an execution.
pub(crate) fn deed_facts<L: Ledger>(
    setting: &Setting<'_>,
    known: &KnownTab,
    form: &Form,
    finding: &Finding,
    user: UserId,
    spent: Spent,
    steps: &mut Steps<L>,
) -> Result<Sequence<Fact>, Memory>
    requires serials { HasSerials setting.now.facts (2 ^ 63 - 8) }
    requires keepable { IsKeepable finding.now }
    ensures { IfOk result (λ added. added ≡ deed_facts setting.now known.now form.now finding.now user spent) }
{
    let mut added = Sequence::new(setting.alloc);
    match form {
        Form::Terms => add_done(&mut added, user, Action::Terms)?,
        Form::UpdatePassword { .. } => {
            let serial = new_serial(setting);
            add_password(&mut added, user, serial, &derived(finding), Some(known.tab))?;
            add_done(&mut added, user, Action::UpdatePassword)?;
        }
        Form::ConfigureOtp { .. } => {
            add_secret(&mut added, setting, known, user)?;
            add_step(&mut added, new_serial(setting), spent)?;
            add_done(&mut added, user, Action::ConfigureOtp)?;
        }
        Form::RecoveryCodes => {
            add_codes(&mut added, setting, known, user, steps)?;
            add_done(&mut added, user, Action::RecoveryCodes)?;
        }
        Form::Username { .. }
        | Form::Password { .. }
        | Form::NamePassword { .. }
        | Form::Value { .. }
        | Form::VerifyEmail => {}
    }
    Ok(added)
}

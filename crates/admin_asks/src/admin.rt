ghost use Rattle.std.specs.Prelude.{◌≡◌, ◌-◌, ◌^◌, IfOk};
ghost use Rattle.hall_answers.specs.HasSerials.{HasSerials};
ghost use Rattle.admin_asks.specs.Admin.{check_key, due_verb, due_admin};
ghost use Rattle.hall_answers.specs.Passwords.{IsKeepable};

use crate::closing::{due_disable, due_enable, due_unlock};
use crate::ending::{due_revoke, due_sweep};
use crate::otp_remove::due_otp_remove;
use crate::otp_set::due_otp_set;
use crate::realm_put::due_realm_put;
use crate::require::due_require;
use crate::roles::due_roles;
use crate::set_password::due_set_password;
use crate::token::due_token;
use crate::user_add::due_user_add;
use facts::{Access, AdminVerb, Finding, Realm};
use hall_answers::{Answer, Refusal, Setting, refused};
use login_base::{Memory, Steps};
use std::sync::ledger::Ledger;

/// An administrator comes in locally, or with the realm's key.
#[tactic(auto, unfolding(crate::specs::Admin::check_key))]
fn check_key(realm: &Realm, access: &Access) -> Result<(), Refusal>
    ensures { result ≡ check_key realm.now access.now }
{
    match access {
        Access::Key(digest) if *digest != realm.parts().admin_key => Err(Refusal::WrongKey),
        _ => Ok(()),
    }
}

fn due_verb<L: Ledger>(
    setting: &Setting<'_>,
    verb: &AdminVerb,
    finding: &Finding,
    steps: &mut Steps<L>,
) -> Result<Answer, Memory>
    requires serials { HasSerials setting.now.facts (2 ^ 63 - 8) }
    requires keepable { IsKeepable finding.now }
    ensures { IfOk result (λ answer. answer ≡ due_verb setting.now verb.now finding.now) }
{
    match verb {
        AdminVerb::RealmPut { realm } => due_realm_put(setting, realm, steps),
        AdminVerb::UserAdd(new) => due_user_add(setting, new, finding, steps),
        AdminVerb::SetPassword { name, .. } => due_set_password(setting, name, finding, steps),
        AdminVerb::OtpSet { name, secret } => due_otp_set(setting, name, secret, steps),
        AdminVerb::OtpRemove { name } => due_otp_remove(setting, name, steps),
        AdminVerb::Enable { name } => due_enable(setting, name, steps),
        AdminVerb::Disable { name } => due_disable(setting, name, steps),
        AdminVerb::Unlock { name } => due_unlock(setting, name, steps),
        AdminVerb::Roles { name, roles } => due_roles(setting, name, roles, steps),
        AdminVerb::Revoke { session } => due_revoke(setting, *session, steps),
        AdminVerb::Sweep => due_sweep(setting, steps),
        AdminVerb::Require { name, action } => due_require(setting, name, *action, steps),
        AdminVerb::Token { name, action, life } => due_token(setting, name, *action, *life, steps),
    }
}

/// What an administrator's ask is due.
#[tactic(auto, unfolding(crate::specs::Admin::due_admin))]
pub fn due_admin<L: Ledger>(
    setting: &Setting<'_>,
    access: &Access,
    verb: &AdminVerb,
    finding: &Finding,
    steps: &mut Steps<L>,
) -> Result<Answer, Memory>
    requires serials { HasSerials setting.now.facts (2 ^ 63 - 8) }
    requires keepable { IsKeepable finding.now }
    ensures ok { IfOk result (λ answer. answer ≡ due_admin setting.now access.now verb.now finding.now) }
{
    match check_key(setting.realm, access) {
        Ok(()) => due_verb(setting, verb, finding, steps),
        Err(refusal) => refused(setting.alloc, &setting.facts(), None, refusal, steps),
    }
}

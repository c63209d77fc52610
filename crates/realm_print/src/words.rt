ghost use Rattle.std.specs.Prelude.{◌≡◌, Some, IfOk, IsTrue};
ghost use Rattle.toml.specs.Data.{string};
ghost use Rattle.toml.specs.View.{view};
ghost use Rattle.login_base.specs.Names.{is_name};
ghost use Rattle.realm_fields.specs.Words.{requirement_of, exec_kind_of, mode_of, action_of};

use crate::values::Prints;
use flow_tree::{Kind, Requirement};
use lockout::Mode;
use login_base::{Memory, Name};
use realm_data::Action;
use realm_fields::ExecKind;
use std::alloc::Global;
use std::str::from_utf8;
use toml::Value;

/// How an execution counts, in a word.
pub fn requirement_word(requirement: Requirement) -> &'static str
    ensures { requirement_of result.now ≡ Some requirement }
{
    match requirement {
        Requirement::Required => "required",
        Requirement::Alternative => "alternative",
        Requirement::Conditional => "conditional",
        Requirement::Disabled => "disabled",
    }
}

/// What an execution is, in a word.
#[tactic(auto, unfolding(realm_fields::specs::Words::exec_kind_of, realm_fields::specs::Words::leaf_kind_of))]
pub fn kind_word(kind: ExecKind) -> &'static str
    ensures { exec_kind_of result.now ≡ Some kind }
{
    match kind {
        ExecKind::Auth(Kind::Allow) => "allow",
        ExecKind::Auth(Kind::Deny) => "deny",
        ExecKind::Auth(Kind::Cookie) => "cookie",
        ExecKind::Auth(Kind::Username) => "username",
        ExecKind::Auth(Kind::Password) => "password",
        ExecKind::Auth(Kind::Form) => "form",
        ExecKind::Auth(Kind::Otp) => "otp",
        ExecKind::Auth(Kind::Recovery) => "recovery",
        ExecKind::Configured => "configured",
        ExecKind::Role => "role",
        ExecKind::Level => "level",
        ExecKind::Flow => "flow",
    }
}

fn mode_word(mode: Mode) -> &'static str
    ensures { mode_of result.now ≡ Some mode }
{
    match mode {
        Mode::Temporary => "temporary",
        Mode::Permanent => "permanent",
    }
}

#[tactic(auto, unfolding(realm_fields::specs::Words::action_of))]
fn action_word(action: Action) -> &'static str
    ensures { action_of result.now ≡ Some action }
{
    match action {
        Action::Terms => "terms",
        Action::VerifyEmail => "verify_email",
        Action::UpdatePassword => "update_password",
        Action::ConfigureOtp => "configure_otp",
        Action::RecoveryCodes => "recovery_codes",
    }
}

/// The name as text.
#[tactic(auto, using(crate::proofs::WordLemmas::name_rules))]
pub fn name_text(name: &Name) -> &str
    ensures text { result.now ≡ name.now }
    ensures name { IsTrue (is_name name.now) }
{
    match from_utf8(name.as_bytes()) {
        Ok(text) => text,
        Err(_) => unreachable!(),
    }
}

impl Prints for Mode {
    ghost deep = { 0 };

    fn print(&self, alloc: Global) -> Result<Value, Memory> {
        Ok(Value::string(alloc, mode_word(*self))?)
    }
}

impl Prints for Action {
    ghost deep = { 0 };

    fn print(&self, alloc: Global) -> Result<Value, Memory> {
        Ok(Value::string(alloc, action_word(*self))?)
    }
}

impl Prints for Name {
    ghost deep = { 0 };

    fn print(&self, alloc: Global) -> Result<Value, Memory> {
        Ok(Value::string(alloc, name_text(self))?)
    }
}

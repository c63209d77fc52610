ghost use Rattle.std.specs.Prelude.{◌≡◌, ◌++◌, OnOk};
ghost use Rattle.std.specs.List.{flat_map};
ghost use Rattle.web_pages.specs.Forms.{kind_fields, action_fields, field_text};

use crate::text::add;
use flow_tree::Kind;
use login_base::Memory;
use realm_data::Action;

/// What a browser fills in.
#[derive(Clone, Copy, Debug, PartialEq, Eq)]
pub enum Field {
    Name,
    Password,
    Value,
}

/// What a browser fills in for an execution.
pub fn kind_fields(kind: Kind) -> &'static [Field]
    ensures fields { result.now ≡ kind_fields kind }
{
    match kind {
        Kind::Username => &[Field::Name],
        Kind::Password => &[Field::Password],
        Kind::Form => &[Field::Name, Field::Password],
        Kind::Otp | Kind::Recovery => &[Field::Value],
        Kind::Allow | Kind::Deny | Kind::Cookie => &[],
    }
}

/// What a browser fills in for an action.
pub fn action_fields(action: Action) -> &'static [Field]
    ensures fields { result.now ≡ action_fields action }
{
    match action {
        Action::UpdatePassword => &[Field::Password],
        Action::ConfigureOtp => &[Field::Value],
        Action::Terms | Action::RecoveryCodes | Action::VerifyEmail => &[],
    }
}

fn field_text(field: Field) -> &'static [u8]
    ensures { result.now ≡ field_text field }
{
    match field {
        Field::Name => b"<input name=\"name\">",
        Field::Password => b"<input name=\"password\" type=\"password\">",
        Field::Value => b"<input name=\"value\">",
    }
}

/// Adds the inputs of fields.
pub fn add_fields(out: &mut Vec<u8>, fields: &[Field]) -> Result<(), Memory>
    ensures text { OnOk result (out.new.items ≡ out.old.items ++ flat_map field_text fields.now) }
{
    for field in fields {
        add(out, field_text(*field))?;
    }
    Ok(())
}

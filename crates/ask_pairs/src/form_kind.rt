ghost use Rattle.std.specs.Prelude.{◌≡◌, Some};
ghost use Rattle.std.specs.Option.{option_copied};
ghost use Rattle.ask_pairs.specs.Posts.{execution_form, action_kind, named_action, single_action, action_form, form_kind};

use crate::pairs::{Pair, has, value_of};
use crate::place::Place;
use realm_data::Action;
use realm_fields::action_of;

/// Which form a post carries.
#[derive(Clone, Copy, Debug, PartialEq, Eq)]
pub enum FormKind {
    Username,
    Password,
    NamePassword,
    Value,
    Terms,
    UpdatePassword,
    ConfigureOtp,
    RecoveryCodes,
    VerifyEmail,
}

/// The form of an execution: a name, a password, both, or a value.
fn execution_form(name: bool, password: bool, value: bool) -> Result<FormKind, Place>
    ensures { result ≡ execution_form name password value }
{
    match (name, password, value) {
        (true, false, false) => Ok(FormKind::Username),
        (false, true, false) => Ok(FormKind::Password),
        (true, true, false) => Ok(FormKind::NamePassword),
        (false, false, true) => Ok(FormKind::Value),
        _ => Err(Place::Form),
    }
}

/// The form of an action: a new password, a value, or none of the two.
fn action_kind(action: Action, password: bool, value: bool) -> Result<FormKind, Place>
    ensures { result ≡ action_kind action password value }
{
    match (action, password, value) {
        (Action::Terms, false, false) => Ok(FormKind::Terms),
        (Action::VerifyEmail, false, false) => Ok(FormKind::VerifyEmail),
        (Action::UpdatePassword, true, false) => Ok(FormKind::UpdatePassword),
        (Action::ConfigureOtp, false, true) => Ok(FormKind::ConfigureOtp),
        (Action::RecoveryCodes, false, false) => Ok(FormKind::RecoveryCodes),
        _ => Err(Place::Form),
    }
}

/// The form of the action that one pair names; a doubled pair is malformed itself.
fn single_action(word: Option<&[u8]>, password: bool, value: bool) -> Result<FormKind, Place>
    ensures { result ≡ single_action (option_copied word.entry) password value }
{
    match word {
        Some(word) => match action_of(word) {
            Some(action) => action_kind(action, password, value),
            None => Err(Place::Form),
        },
        None => Err(Place::Action),
    }
}

/// The form of an action, none of which has both a password and a value.
fn action_form(word: Option<&[u8]>, password: bool, value: bool) -> Result<FormKind, Place>
    ensures { result ≡ action_form (option_copied word.entry) password value }
{
    if password && value {
        return Err(Place::Form);
    }
    single_action(word, password, value)
}

/// The form of a post, which is told by the pairs that are there, doubled or not.
pub fn form_kind(pairs: &[Pair]) -> Result<FormKind, Place>
    ensures kind { result ≡ form_kind pairs.now }
{
    let name = has(pairs, b"name");
    let password = has(pairs, b"password");
    let value = has(pairs, b"value");
    match (has(pairs, b"execution"), has(pairs, b"action"), name) {
        (true, false, _) => execution_form(name, password, value),
        (false, true, false) => action_form(value_of(pairs, b"action"), password, value),
        _ => Err(Place::Form),
    }
}

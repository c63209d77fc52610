use login_base::{Id, Memory, Name, RootKey, id_text};
use realm_data::Action;

/// Adds a label and a value.
pub fn put(out: &mut Vec<u8>, label: &[u8], value: &[u8]) -> Result<(), Memory> {
    out.extend_from_slice(label)?;
    out.extend_from_slice(value)?;
    Ok(())
}

/// Adds a label and an id.
pub fn put_id(out: &mut Vec<u8>, label: &[u8], id: &Id) -> Result<(), Memory> {
    put(out, label, &id_text(id))
}

/// Adds a root, if there is one.
pub fn put_root(out: &mut Vec<u8>, root: &Option<RootKey>) -> Result<(), Memory> {
    match root {
        Some(root) => put_id(out, b" root=", &root.0),
        None => Ok(()),
    }
}

fn put_more_names(out: &mut Vec<u8>, names: &[Name]) -> Result<(), Memory> {
    for name in names {
        put(out, b",", name.as_bytes())?;
    }
    Ok(())
}

/// Adds a label and names with commas between them.
pub fn put_names(out: &mut Vec<u8>, label: &[u8], names: &[Name]) -> Result<(), Memory> {
    match names {
        [] => put(out, label, b""),
        [first, rest @ ..] => {
            put(out, label, first.as_bytes())?;
            put_more_names(out, rest)
        }
    }
}

/// The word of an action.
pub fn action_word(action: Action) -> &'static [u8] {
    match action {
        Action::Terms => b"terms",
        Action::VerifyEmail => b"verify_email",
        Action::UpdatePassword => b"update_password",
        Action::ConfigureOtp => b"configure_otp",
        Action::RecoveryCodes => b"recovery_codes",
    }
}

fn put_more_actions(out: &mut Vec<u8>, actions: &[Action]) -> Result<(), Memory> {
    for action in actions {
        put(out, b",", action_word(*action))?;
    }
    Ok(())
}

/// Adds a label and actions with commas between them.
pub fn put_actions(out: &mut Vec<u8>, label: &[u8], actions: &[Action]) -> Result<(), Memory> {
    match actions {
        [] => put(out, label, b""),
        [first, rest @ ..] => {
            put(out, label, action_word(*first))?;
            put_more_actions(out, rest)
        }
    }
}

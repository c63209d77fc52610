use crate::text::{action_word, put, put_actions, put_id, put_names};
use asks::{Access, AdminVerb, NewUser, TokenAction};
use login_base::{Memory, Name};
use one_time::base32_text;
use realm_data::OtpSecret;
use std::alloc::Global;

/// The digest of the key that came, or that none did.
fn put_access(alloc: Global, out: &mut Vec<u8>, access: Access) -> Result<(), Memory> {
    match access {
        Access::Local => put(out, b" local", b""),
        Access::Key(digest) => {
            let text = hex::encode(alloc, digest.as_slice())?;
            put(out, b" key=", text.as_bytes())
        }
    }
}

fn put_secret(
    alloc: Global,
    out: &mut Vec<u8>,
    label: &[u8],
    secret: &OtpSecret,
) -> Result<(), Memory> {
    let text = base32_text(alloc, secret.key())?;
    put(out, label, text.as_slice())
}

fn put_new_user(alloc: Global, out: &mut Vec<u8>, new: &NewUser) -> Result<(), Memory> {
    put(out, b" name=", new.name.as_bytes())?;
    if let Some(password) = &new.password {
        put(out, b" password=", password.as_slice())?;
    }
    if let Some(secret) = &new.otp {
        put_secret(alloc, out, b" otp=", secret)?;
    }
    put_names(out, b" roles=", new.roles.as_slice())?;
    put_actions(out, b" actions=", new.actions.as_slice())
}

fn token_word(action: TokenAction) -> &'static [u8] {
    match action {
        TokenAction::VerifyEmail => b"verify_email",
        TokenAction::UpdatePassword => b"update_password",
    }
}

/// The word of a verb.
fn verb_word(verb: &AdminVerb) -> &'static [u8] {
    match verb {
        AdminVerb::RealmPut { .. } => b"realm-put",
        AdminVerb::UserAdd(_) => b"user-add",
        AdminVerb::Roles { .. } => b"roles",
        AdminVerb::SetPassword { .. } => b"set-password",
        AdminVerb::OtpSet { .. } => b"otp-set",
        AdminVerb::OtpRemove { .. } => b"otp-remove",
        AdminVerb::Require { .. } => b"require",
        AdminVerb::Enable { .. } => b"enable",
        AdminVerb::Disable { .. } => b"disable",
        AdminVerb::Unlock { .. } => b"unlock",
        AdminVerb::Token { .. } => b"token",
        AdminVerb::Revoke { .. } => b"revoke",
        AdminVerb::Sweep => b"sweep",
    }
}

fn put_name(out: &mut Vec<u8>, name: &Name) -> Result<(), Memory> {
    put(out, b" name=", name.as_bytes())
}

/// Adds the pairs of a verb.
fn put_pairs(alloc: Global, out: &mut Vec<u8>, verb: &AdminVerb) -> Result<(), Memory> {
    match verb {
        AdminVerb::UserAdd(new) => put_new_user(alloc, out, new),
        AdminVerb::Roles { name, roles } => {
            put_name(out, name)?;
            put_names(out, b" roles=", roles.as_slice())
        }
        AdminVerb::SetPassword { name, password } => {
            put_name(out, name)?;
            put(out, b" password=", password.as_slice())
        }
        AdminVerb::OtpSet { name, secret } => {
            put_name(out, name)?;
            put_secret(alloc, out, b" secret=", secret)
        }
        AdminVerb::OtpRemove { name }
        | AdminVerb::Enable { name }
        | AdminVerb::Disable { name }
        | AdminVerb::Unlock { name } => put_name(out, name),
        AdminVerb::Require { name, action } => {
            put_name(out, name)?;
            put(out, b" action=", action_word(*action))
        }
        AdminVerb::Token { name, action, life } => {
            put_name(out, name)?;
            put(out, b" action=", token_word(*action))?;
            let seconds = life.seconds().to_string(alloc)?;
            put(out, b" life=", seconds.as_bytes())
        }
        AdminVerb::Revoke { session } => put_id(out, b" session=", &session.0),
        AdminVerb::RealmPut { .. } | AdminVerb::Sweep => Ok(()),
    }
}

/// Adds the words of what an administrator asks.
pub fn put_admin(
    alloc: Global,
    out: &mut Vec<u8>,
    access: Access,
    verb: &AdminVerb,
) -> Result<(), Memory> {
    put(out, verb_word(verb), b"")?;
    put_access(alloc, out, access)?;
    put_pairs(alloc, out, verb)
}

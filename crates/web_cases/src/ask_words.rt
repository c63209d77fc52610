use crate::admin_words::put_admin;
use crate::text::{put, put_id, put_root};
use asks::{Ask, Form, NewTab, Post};
use login_base::{Memory, Name, Sequence};
use std::alloc::Global;

fn put_execution(out: &mut Vec<u8>, execution: &Name) -> Result<(), Memory> {
    put(out, b" execution=", execution.as_bytes())
}

fn put_password(out: &mut Vec<u8>, password: &Sequence<u8>) -> Result<(), Memory> {
    put(out, b" password=", password.as_slice())
}

fn put_form(out: &mut Vec<u8>, form: &Form) -> Result<(), Memory> {
    match form {
        Form::Username { execution, name } => {
            put_execution(out, execution)?;
            put(out, b" name=", name.as_bytes())
        }
        Form::Password {
            execution,
            password,
        } => {
            put_execution(out, execution)?;
            put_password(out, password)
        }
        Form::NamePassword {
            execution,
            name,
            password,
        } => {
            put_execution(out, execution)?;
            put(out, b" name=", name.as_bytes())?;
            put_password(out, password)
        }
        Form::Value { execution, value } => {
            put_execution(out, execution)?;
            put(out, b" value=", value.as_slice())
        }
        Form::Terms => put(out, b" action=", b"terms"),
        Form::UpdatePassword { password } => {
            put(out, b" action=", b"update_password")?;
            put_password(out, password)
        }
        Form::ConfigureOtp { value } => put(out, b" action=configure_otp value=", value.as_slice()),
        Form::RecoveryCodes => put(out, b" action=", b"recovery_codes"),
        Form::VerifyEmail => put(out, b" action=", b"verify_email"),
    }
}

fn put_new_tab(out: &mut Vec<u8>, new: &NewTab) -> Result<(), Memory> {
    put(out, b"open client=", new.client.as_bytes())?;
    if let Some(acr) = &new.acr {
        put(out, b" acr=", acr.as_bytes())?;
    }
    put_root(out, &new.root)
}

fn put_post(out: &mut Vec<u8>, post: &Post) -> Result<(), Memory> {
    put(out, b"post", b"")?;
    put_root(out, &post.root)?;
    put_id(out, b" tab=", &post.tab.0)?;
    put_id(out, b" code=", &post.code.0)?;
    put_form(out, &post.form)
}

/// Adds the words of an ask.
pub fn put_ask(alloc: Global, out: &mut Vec<u8>, ask: &Ask) -> Result<(), Memory> {
    match ask {
        Ask::Bad { at } => put(out, b"bad at=", at.as_bytes()),
        Ask::NewTab(new) => put_new_tab(out, new),
        Ask::Page { root, tab } => {
            put(out, b"page", b"")?;
            put_root(out, root)?;
            put_id(out, b" tab=", &tab.0)
        }
        Ask::Post(post) => put_post(out, post),
        Ask::Verify { key } => put_id(out, b"verify key=", &key.0),
        Ask::Reset { key, password } => {
            put_id(out, b"reset key=", &key.0)?;
            put_password(out, password)
        }
        Ask::Logout { root } => {
            put(out, b"logout", b"")?;
            put_root(out, root)
        }
        Ask::Admin { access, verb } => put_admin(alloc, out, *access, verb),
    }
}

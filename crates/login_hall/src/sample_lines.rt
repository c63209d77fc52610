//! Facts as lines.

use facts::{Fact, Secret};
use login_base::Memory;
use std::alloc::Global;

/// The last 32 digits of an id's text, where each draw of its ask is 0.
const NO_DRAWS: &str = ".00000000000000000000000000000000";

/// The text with each `[serial]` spelled as the id of that serial.
pub(crate) fn spelled(alloc: Global, text: &str) -> Result<String, Memory> {
    let text = text.replace(alloc, "[", "000000000000000")?;
    Ok(text.as_str().replace(alloc, "]", NO_DRAWS)?)
}

/// Adds a line of a word, a number and more words.
fn add_line(
    alloc: Global,
    out: &mut Vec<u8>,
    word: &str,
    number: u64,
    more: &[u8],
) -> Result<(), Memory> {
    let front = format!(in alloc; "{word} {number} ")?;
    out.extend_from_slice(front.as_bytes())?;
    out.extend_from_slice(more)?;
    out.push(b'\n')?;
    Ok(())
}

fn add_password(
    alloc: Global,
    out: &mut Vec<u8>,
    serial: u64,
    user: u64,
    secret: &Secret,
) -> Result<(), Memory> {
    let rounds = match secret {
        Secret::Password { hash } => hash.iterations(),
        _ => 0,
    };
    let more = format!(in alloc; "of user {user}, {rounds} rounds")?;
    add_line(alloc, out, "password", serial, more.as_bytes())
}

/// Adds the line of a fact about a tab or a session, if it is one.
fn add_login_fact(alloc: Global, out: &mut Vec<u8>, fact: &Fact) -> Result<(), Memory> {
    match fact {
        Fact::Failed { user, .. } => add_line(alloc, out, "user", user.0, b"failed"),
        Fact::Rendered { tab, .. } => add_line(alloc, out, "tab", tab.0.serial, b"shown"),
        Fact::Named { tab, .. } => add_line(alloc, out, "tab", tab.0.serial, b"named"),
        Fact::Passed { credential, .. } => add_line(alloc, out, "secret", *credential, b"passed"),
        Fact::Seen { session, .. } => add_line(alloc, out, "session", session.0.serial, b"seen"),
        Fact::Session { user, .. } => add_line(alloc, out, "user", user.0, b"in a session"),
        Fact::Completed { tab, .. } => add_line(alloc, out, "tab", tab.0.serial, b"completed"),
        Fact::Opened {
            tab,
            version,
            level,
            life,
            ..
        } => {
            let more = format!(in alloc; "of version {version}, level {level}, {life} ms")?;
            add_line(alloc, out, "tab", tab.0.serial, more.as_bytes())
        }
        _ => add_line(alloc, out, "other", 0, b""),
    }
}

/// Adds the line of a fact.
fn add_fact(alloc: Global, out: &mut Vec<u8>, fact: &Fact) -> Result<(), Memory> {
    match fact {
        Fact::RealmPut { version, realm } => {
            add_line(alloc, out, "realm", *version, realm.parts().name.as_bytes())
        }
        Fact::UserPut { user, name, .. } => add_line(alloc, out, "user", user.0, name.as_bytes()),
        Fact::Disabled { user } => add_line(alloc, out, "user", user.0, b"is disabled"),
        Fact::SecretSet {
            user,
            serial,
            secret,
            ..
        } => add_password(alloc, out, *serial, user.0, secret),
        _ => add_login_fact(alloc, out, fact),
    }
}

/// Adds the lines of facts, in order.
pub(crate) fn add_facts(alloc: Global, out: &mut Vec<u8>, facts: &[Fact]) -> Result<(), Memory> {
    for fact in facts {
        add_fact(alloc, out, fact)?;
    }
    Ok(())
}

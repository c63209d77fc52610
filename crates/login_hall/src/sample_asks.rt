//! Asks to try.

use crate::sample_realms::name_of;
use facts::{Access, Action, AdminVerb, Ask, Form, NewTab, NewUser, Post};
use login_base::{Code, Draws, Id, Memory, RootKey, Sequence, TabKey};
use std::alloc::Global;
use std::test::Fail;

pub(crate) const DRAWS: Draws = Draws([0; 10]);

/// The moment of an ask, in milliseconds.
pub(crate) const MOMENT: u64 = 1_000;

/// A form: its execution, a name and a password.
pub(crate) type Filled = (&'static str, &'static str, &'static str);

/// An ask. Pages and posts are those of the tab 2.
#[derive(Clone, Copy)]
pub(crate) enum Line {
    /// Opens a tab for a client, in the root of a serial or in none, with a level or without.
    Open(&'static str, Option<u64>, Option<&'static str>),
    /// Adds a user, who may have a password.
    Add(&'static str, Option<&'static str>),
    /// Adds a user by a key of this byte 32 times.
    Keyed(u8, &'static str),
    /// Adds a user with an action, by such a key or by none.
    Acting(Option<u8>, &'static str),
    /// Shows the tab in the root of a serial.
    Page(u64),
    /// Posts a form in the root of a serial, with the code of a serial.
    Post(u64, Filled, u64),
}

/// The id of a serial, where each draw of its ask is 0.
pub(crate) fn id(serial: u64) -> Id {
    Id {
        serial,
        high: 0,
        low: 0,
    }
}

fn text_of(alloc: Global, text: &str) -> Result<Sequence<u8>, Memory> {
    Ok(Sequence::from_vec(Vec::from_slice(alloc, text.as_bytes())?))
}

fn opening(alloc: Global, client: &str, root: Option<u64>, acr: Option<&str>) -> Result<Ask, Fail> {
    let acr = match acr {
        Some(acr) => Some(name_of(alloc, acr)?),
        None => None,
    };
    Ok(Ask::NewTab(NewTab {
        root: root.map(|root| RootKey(id(root))),
        client: name_of(alloc, client)?,
        acr,
    }))
}

fn adding(
    alloc: Global,
    access: Access,
    name: &str,
    password: Option<&str>,
    actions: Sequence<Action>,
) -> Result<Ask, Fail> {
    let password = match password {
        Some(password) => Some(text_of(alloc, password)?),
        None => None,
    };
    Ok(Ask::Admin {
        access,
        verb: AdminVerb::UserAdd(NewUser {
            name: name_of(alloc, name)?,
            password,
            otp: None,
            roles: Sequence::new(alloc),
            actions,
        }),
    })
}

fn adding_with_action(alloc: Global, key: Option<u8>, name: &str) -> Result<Ask, Fail> {
    let mut actions = Sequence::new(alloc);
    actions.push(Action::Terms)?;
    let access = match key {
        Some(byte) => Access::Key([byte; 32]),
        None => Access::Local,
    };
    adding(alloc, access, name, None, actions)
}

fn form_of(alloc: Global, filled: Filled) -> Result<Form, Fail> {
    let (execution, name, password) = filled;
    Ok(Form::NamePassword {
        execution: name_of(alloc, execution)?,
        name: name_of(alloc, name)?,
        password: text_of(alloc, password)?,
    })
}

fn posting(alloc: Global, root: u64, filled: Filled, code: u64) -> Result<Ask, Fail> {
    Ok(Ask::Post(Post {
        root: Some(RootKey(id(root))),
        tab: TabKey(id(2)),
        code: Code(id(code)),
        form: form_of(alloc, filled)?,
    }))
}

pub(crate) fn ask_of(alloc: Global, line: Line) -> Result<Ask, Fail> {
    match line {
        Line::Open(client, root, acr) => opening(alloc, client, root, acr),
        Line::Add(name, password) => {
            adding(alloc, Access::Local, name, password, Sequence::new(alloc))
        }
        Line::Keyed(byte, name) => {
            let access = Access::Key([byte; 32]);
            adding(alloc, access, name, None, Sequence::new(alloc))
        }
        Line::Acting(key, name) => adding_with_action(alloc, key, name),
        Line::Page(root) => Ok(Ask::Page {
            root: Some(RootKey(id(root))),
            tab: TabKey(id(2)),
        }),
        Line::Post(root, filled, code) => posting(alloc, root, filled, code),
    }
}

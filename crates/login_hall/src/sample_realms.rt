//! Realms to try.

use facts::{Client, PasswordHash, Realm, RealmParts, RealmUser};
use flow_tree::{Body, Exec, Kind, Requirement, Tree};
use login_base::{Duplicate, Name, Sequence, read_name};
use mac_kit::pbkdf2_sha256;
use sqlite_items::Items;
use std::alloc::Global;
use std::test::Fail;

/// A user of a realm: the name, whether it is enabled, and how often the password `pw1` is hashed,
/// where it has one.
pub(crate) type User = (&'static str, bool, Option<u32>);

/// Executions and their kinds.
pub(crate) type Auths = &'static [(&'static str, Kind)];

/// A realm: its name, its clients, its users, and its flow, which requires each of the first
/// executions and then one of the others, if there are any.
pub(crate) type Given = (
    &'static str,
    &'static [&'static str],
    &'static [User],
    Auths,
    Auths,
);

/// The flow of the built-in realm.
pub(crate) const FORM: Auths = &[("form", Kind::Form)];

/// A realm without users.
pub(crate) const PLAIN: Given = ("garden", &["app"], &[], FORM, &[]);

/// Users with and without a password, enabled and disabled. Each has the serial after the one
/// before, and so has each password.
pub(crate) const FEW: Given = (
    "garden",
    &["app"],
    &[
        ("ann", true, Some(7)),
        ("zoe", true, None),
        ("bob", false, Some(9)),
        ("cid", false, None),
    ],
    FORM,
    &[],
);

pub(crate) fn name_of(alloc: Global, name: &str) -> Result<Name, Fail> {
    Ok(read_name(alloc, name.as_bytes())?.ok_or("no name")?)
}

/// The password `pw1`, hashed so often.
fn hash_of(rounds: u32) -> Result<PasswordHash, Fail> {
    if rounds == 0 {
        return Err("no rounds".into());
    }
    let mut digest = [0; 32];
    pbkdf2_sha256(b"pw1", b"salt", rounds, &mut digest);
    Ok(PasswordHash::new(b"salt", rounds, digest).ok_or("no hash")?)
}

fn user_of(alloc: Global, user: User) -> Result<RealmUser, Fail> {
    let (name, enabled, rounds) = user;
    let password = match rounds {
        Some(rounds) => Some(hash_of(rounds)?),
        None => None,
    };
    Ok(RealmUser {
        name: name_of(alloc, name)?,
        roles: Sequence::new(alloc),
        enabled,
        password,
        otp: None,
        recovery: None,
        actions: Sequence::new(alloc),
    })
}

fn users_of(alloc: Global, users: &[User]) -> Result<Sequence<RealmUser>, Fail> {
    let mut all = Sequence::new(alloc);
    for user in users {
        all.push(user_of(alloc, *user)?)?;
    }
    Ok(all)
}

fn clients_of(alloc: Global, ids: &[&str]) -> Result<Sequence<Client>, Fail> {
    let mut all = Sequence::new(alloc);
    for id in ids {
        all.push(Client {
            id: name_of(alloc, *id)?,
            level: 0,
        })?;
    }
    Ok(all)
}

fn execs_of(alloc: Global, requirement: Requirement, auths: Auths) -> Result<Items<Exec>, Fail> {
    let mut execs = Items::new(alloc);
    for (id, kind) in auths {
        execs.push(Exec {
            id: name_of(alloc, *id)?,
            requirement,
            body: Body::Auth(*kind),
        })?;
    }
    Ok(execs)
}

fn flow_of(alloc: Global, all: Auths, one: Auths) -> Result<Tree, Fail> {
    let mut execs = execs_of(alloc, Requirement::Required, all)?;
    if !one.is_empty() {
        execs.push(Exec {
            id: name_of(alloc, "more")?,
            requirement: Requirement::Required,
            body: Body::Sub(execs_of(alloc, Requirement::Alternative, one)?),
        })?;
    }
    match Tree::make(alloc, execs) {
        Ok(tree) => Ok(tree),
        Err(_) => Err("no flow".into()),
    }
}

/// The built-in realm with another name, other clients, other users and another flow.
pub(crate) fn realm_of(alloc: Global, given: Given) -> Result<Realm, Fail> {
    let (name, clients, users, all, one) = given;
    let builtin = Realm::builtin(alloc)?;
    let parts = builtin.parts().duplicate(alloc)?;
    let parts = RealmParts {
        name: name_of(alloc, name)?,
        flow: flow_of(alloc, all, one)?,
        clients: clients_of(alloc, clients)?,
        users: users_of(alloc, users)?,
        ..parts
    };
    Ok(Realm::new(alloc, parts)?.ok_or("no realm")?)
}

ghost use Rattle.std.specs.Prelude.{◌≡◌, IfOk, codes};
ghost use Rattle.ask_pairs.specs.Admin.{new_user, user_add, with_roles, with_password, with_secret, with_action, with_token, of_account, account_verb, named};
ghost use Rattle.ask_pairs.specs.Credentials.{password_text};
ghost use Rattle.ask_pairs.specs.Pairs.{value_of};
ghost use Rattle.ask_pairs.specs.Words.{roles_from, action_from, token_action_from, secret_from, life_from};

use crate::credentials::{password_text, user_name};
use crate::pairs::{Pair, value_of};
use crate::place::{Place, items_or_none, optional};
use crate::words::{
    action_from, actions_from, life_from, roles_from, secret_from, token_action_from,
};
use asks::{AdminVerb, Life, NewUser, TokenAction};
use login_base::{Memory, Name, Sequence};
use realm_data::{Action, OtpSecret};
use std::alloc::Global;

/// The name of a user in the pairs.
fn named(alloc: Global, pairs: &[Pair]) -> Result<Option<Name>, Memory>
    ensures name { IfOk result (λ name. name ≡ named pairs.now) }
{
    user_name(alloc, value_of(pairs, b"name"))
}

/// An account, whose name alone has to be there.
#[tactic(auto, unfolding(crate::specs::Admin::new_user))]
fn new_user(
    name: Option<Name>,
    password: Result<Option<Sequence<u8>>, Place>,
    otp: Result<Option<OtpSecret>, Place>,
    roles: Result<Sequence<Name>, Place>,
    actions: Result<Sequence<Action>, Place>,
) -> Result<AdminVerb, Place>
    ensures { result ≡ new_user name password otp roles actions }
{
    Ok(AdminVerb::UserAdd(NewUser {
        name: name.ok_or(Place::Name)?,
        password: password?,
        otp: otp?,
        roles: roles?,
        actions: actions?,
    }))
}

pub fn user_add(alloc: Global, pairs: &[Pair]) -> Result<Result<AdminVerb, Place>, Memory>
    ensures verb { IfOk result (λ verb. verb ≡ user_add pairs.now) }
{
    let name = named(alloc, pairs)?;
    let password = password_text(alloc, value_of(pairs, b"password"))?;
    let otp = secret_from(alloc, value_of(pairs, b"otp"))?;
    let roles = roles_from(alloc, value_of(pairs, b"roles"))?;
    let actions = actions_from(alloc, value_of(pairs, b"actions"))?;
    Ok(new_user(
        name,
        optional(Place::Password, pairs, password),
        optional(Place::Otp, pairs, otp),
        items_or_none(alloc, optional(Place::Roles, pairs, roles)),
        items_or_none(alloc, optional(Place::Actions, pairs, actions)),
    ))
}

#[tactic(auto, unfolding(crate::specs::Admin::with_roles))]
fn with_roles(name: Option<Name>, roles: Option<Sequence<Name>>) -> Result<AdminVerb, Place>
    ensures { result ≡ with_roles name roles }
{
    Ok(AdminVerb::Roles {
        name: name.ok_or(Place::Name)?,
        roles: roles.ok_or(Place::Roles)?,
    })
}

pub fn roles(alloc: Global, pairs: &[Pair]) -> Result<Result<AdminVerb, Place>, Memory>
    ensures verb { IfOk result (λ verb. verb ≡
        with_roles (named pairs.now) (roles_from (value_of (codes "roles") pairs.now))) }
{
    let name = named(alloc, pairs)?;
    let roles = roles_from(alloc, value_of(pairs, b"roles"))?;
    Ok(with_roles(name, roles))
}

#[tactic(auto, unfolding(crate::specs::Admin::with_password))]
fn with_password(name: Option<Name>, password: Option<Sequence<u8>>) -> Result<AdminVerb, Place>
    ensures { result ≡ with_password name password }
{
    Ok(AdminVerb::SetPassword {
        name: name.ok_or(Place::Name)?,
        password: password.ok_or(Place::Password)?,
    })
}

pub fn set_password(alloc: Global, pairs: &[Pair]) -> Result<Result<AdminVerb, Place>, Memory>
    ensures verb { IfOk result (λ verb. verb ≡
        with_password (named pairs.now) (password_text (value_of (codes "password") pairs.now))) }
{
    let name = named(alloc, pairs)?;
    let password = password_text(alloc, value_of(pairs, b"password"))?;
    Ok(with_password(name, password))
}

#[tactic(auto, unfolding(crate::specs::Admin::with_secret))]
fn with_secret(name: Option<Name>, secret: Option<OtpSecret>) -> Result<AdminVerb, Place>
    ensures { result ≡ with_secret name secret }
{
    Ok(AdminVerb::OtpSet {
        name: name.ok_or(Place::Name)?,
        secret: secret.ok_or(Place::Secret)?,
    })
}

pub fn otp_set(alloc: Global, pairs: &[Pair]) -> Result<Result<AdminVerb, Place>, Memory>
    ensures verb { IfOk result (λ verb. verb ≡
        with_secret (named pairs.now) (secret_from (value_of (codes "secret") pairs.now))) }
{
    let name = named(alloc, pairs)?;
    let secret = secret_from(alloc, value_of(pairs, b"secret"))?;
    Ok(with_secret(name, secret))
}

#[tactic(auto, unfolding(crate::specs::Admin::with_action))]
fn with_action(name: Option<Name>, action: Option<Action>) -> Result<AdminVerb, Place>
    ensures { result ≡ with_action name action }
{
    Ok(AdminVerb::Require {
        name: name.ok_or(Place::Name)?,
        action: action.ok_or(Place::Action)?,
    })
}

pub fn require(alloc: Global, pairs: &[Pair]) -> Result<Result<AdminVerb, Place>, Memory>
    ensures verb { IfOk result (λ verb. verb ≡
        with_action (named pairs.now) (action_from (value_of (codes "action") pairs.now))) }
{
    let name = named(alloc, pairs)?;
    Ok(with_action(name, action_from(value_of(pairs, b"action"))))
}

#[tactic(auto, unfolding(crate::specs::Admin::with_token))]
fn with_token(
    name: Option<Name>,
    action: Option<TokenAction>,
    life: Option<Life>,
) -> Result<AdminVerb, Place>
    ensures { result ≡ with_token name action life }
{
    Ok(AdminVerb::Token {
        name: name.ok_or(Place::Name)?,
        action: action.ok_or(Place::Action)?,
        life: life.ok_or(Place::Life)?,
    })
}

pub fn token(alloc: Global, pairs: &[Pair]) -> Result<Result<AdminVerb, Place>, Memory>
    ensures verb { IfOk result (λ verb. verb ≡ with_token (named pairs.now)
        (token_action_from (value_of (codes "action") pairs.now)) (life_from (value_of (codes "life") pairs.now))) }
{
    let name = named(alloc, pairs)?;
    let action = token_action_from(value_of(pairs, b"action"));
    Ok(with_token(name, action, life_from(value_of(pairs, b"life"))))
}

/// A verb that has a user's name alone.
#[derive(Clone, Copy, Debug, PartialEq, Eq)]
pub enum AccountVerb {
    OtpRemove,
    Enable,
    Disable,
    Unlock,
}

/// What is asked of the account of this name.
fn of_account(verb: AccountVerb, name: Name) -> AdminVerb
    ensures { result ≡ of_account verb name }
{
    match verb {
        AccountVerb::OtpRemove => AdminVerb::OtpRemove { name },
        AccountVerb::Enable => AdminVerb::Enable { name },
        AccountVerb::Disable => AdminVerb::Disable { name },
        AccountVerb::Unlock => AdminVerb::Unlock { name },
    }
}

pub fn account_verb(
    alloc: Global,
    verb: AccountVerb,
    pairs: &[Pair],
) -> Result<Result<AdminVerb, Place>, Memory>
    ensures verb { IfOk result (λ read. read ≡ account_verb verb (named pairs.now)) }
{
    match named(alloc, pairs)? {
        Some(name) => Ok(Ok(of_account(verb, name))),
        None => Ok(Err(Place::Name)),
    }
}

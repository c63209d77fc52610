ghost use Rattle.std.specs.Prelude.{◌≡◌, ℕ, List, true, IfOk};
ghost use Rattle.std.specs.List.{list_all};
ghost use Rattle.std.specs.Option.{option_map_or};
ghost use Rattle.realm_data.specs.PasswordHash.{is_hash};
ghost use Rattle.realm_data.specs.Realm.{is_within, are_limits, is_otp_rule, is_policy, are_numbers};
ghost use Rattle.realm_data.specs.Realm.{are_apart, is_before, are_ascending, is_bound, are_levels, are_clients};
ghost use Rattle.realm_data.specs.Realm.{are_users, is_user_named, are_named};
ghost use Rattle.realm_data.specs.Realm.{has_secrets_in_range, are_secrets, is_realm};
ghost use Rattle.realm_data.specs.Secrets.{is_otp_key, are_recovery_digests};
ghost use Rattle.login_base.specs.Names.{is_name};

use crate::otp_secret::{OtpSecret, is_otp_key};
use crate::password_hash::{PasswordHash, is_iterations};
use crate::realm_parts::{AcrLevel, Client, OtpRule, RealmParts, RealmUser, SessionLimits};
use crate::recovery_digests::{RecoveryDigests, are_recovery_digests};
use flow_tree::Tree;
use lockout::Policy;
use login_base::{Memory, Name, is_name};
use std::alloc::Global;
use std::cmp::Ordering;
use std::collections::BTreeSet;

/// What has a name.
trait Named {
    ghost name: { Self → List ℕ };

    fn name(&self) -> &Name
        ensures { result.now ≡ name self.now };
}

impl Named for AcrLevel {
    ghost name = { λ a. a.name };

    fn name(&self) -> &Name {
        &self.name
    }
}

impl Named for Client {
    ghost name = { λ c. c.id };

    fn name(&self) -> &Name {
        &self.id
    }
}

impl Named for RealmUser {
    ghost name = { λ u. u.name };

    fn name(&self) -> &Name {
        &self.name
    }
}

fn is_within(least: u64, greatest: u64, number: u64) -> bool
    ensures { result ≡ is_within least greatest number }
{
    least <= number && number <= greatest
}

fn are_limits(session: SessionLimits) -> bool
    ensures { result ≡ are_limits session }
{
    is_within(1, 31_536_000, session.idle)
        && is_within(1, 31_536_000, session.max)
        && is_within(60, 86_400, session.tab)
}

fn is_otp_rule(otp: OtpRule) -> bool
    ensures { result ≡ is_otp_rule otp }
{
    is_within(6, 8, u64::from(otp.digits)) && otp.window <= 2
}

fn is_policy(policy: &Policy) -> bool
    ensures { result ≡ is_policy policy.now }
{
    policy.is_valid()
}

fn are_numbers(parts: &RealmParts) -> bool
    ensures { result ≡ are_numbers parts.now }
{
    are_limits(parts.session)
        && is_iterations(parts.iterations)
        && is_otp_rule(parts.otp)
        && is_within(1, 16, u64::from(parts.recovery_count))
        && is_policy(&parts.lockout)
}

/// Whether no two of the items have one name.
fn are_apart<T: Named>(alloc: Global, items: &[T]) -> Result<bool, Memory>
    ensures { IfOk result (λ apart. apart ≡ are_apart T.name items.now) }
{
    let mut names = BTreeSet::new(alloc);
    for item in items {
        if !names.insert(item.name().as_bytes())? {
            return Ok(false);
        }
    }
    Ok(true)
}

/// Whether the item's name stands before that of the first of these, if there is one.
fn is_before<T: Named>(item: &T, items: &[T]) -> bool
    ensures { result ≡ is_before T.name item.now items.now }
{
    match items {
        [] => true,
        [next, ..] => item.name().as_bytes().cmp(next.name().as_bytes()) == Ordering::Less,
    }
}

/// Whether each item's name stands before the next one's.
#[tactic(auto, unfolding(crate::specs::Realm::are_ascending))]
fn are_ascending<T: Named>(items: &[T]) -> bool
    ensures { result ≡ are_ascending T.name items.now }
{
    let mut rest = items;
    while let [item, others @ ..] = rest {
        if !is_before(item, others) {
            return false;
        }
        rest = others;
    }
    true
}

fn is_bound(flow: &Tree, level: u32) -> bool
    ensures { result ≡ is_bound flow.now level }
{
    level <= 1_000 && (level == 0 || flow.live_age(level).is_some())
}

fn are_bound(flow: &Tree, acr: &[AcrLevel]) -> bool
    ensures { result ≡ list_all (λ a. is_bound flow.now a.level) acr.now }
{
    acr.iter().all(|acr| is_bound(flow, acr.level))
}

fn are_levels(flow: &Tree, acr: &[AcrLevel]) -> bool
    ensures { result ≡ are_levels flow.now acr.now }
{
    are_ascending(acr) && are_bound(flow, acr)
}

fn have_bound_levels(flow: &Tree, clients: &[Client]) -> bool
    ensures { result ≡ list_all (λ c. is_bound flow.now c.level) clients.now }
{
    clients.iter().all(|client| is_bound(flow, client.level))
}

fn are_clients(alloc: Global, flow: &Tree, clients: &[Client]) -> Result<bool, Memory>
    ensures { IfOk result (λ kept. kept ≡ are_clients flow.now clients.now) }
{
    Ok(
        (1..=64).contains(&clients.len())
            && have_bound_levels(flow, clients)
            && are_apart(alloc, clients)?,
    )
}

fn are_users(alloc: Global, users: &[RealmUser]) -> Result<bool, Memory>
    ensures { IfOk result (λ kept. kept ≡ are_users users.now) }
{
    Ok(users.len() <= 10_000 && are_apart(alloc, users)?)
}

// ---- what the parts keep by their types

fn is_named(name: &Name) -> bool
    ensures { result ≡ is_name name.now }
{
    is_name(name.as_bytes())
}

fn have_names<T: Named>(items: &[T]) -> bool
    ensures { result ≡ list_all (λ item. is_name (T.name item)) items.now }
{
    items.iter().all(|item| is_named(item.name()))
}

fn are_roles(roles: &[Name]) -> bool
    ensures { result ≡ list_all is_name roles.now }
{
    roles.iter().all(|role| is_named(role))
}

fn is_user_named(user: &RealmUser) -> bool
    ensures { result ≡ is_user_named user.now }
{
    is_named(&user.name) && are_roles(user.roles.as_slice())
}

fn are_users_named(users: &[RealmUser]) -> bool
    ensures { result ≡ list_all is_user_named users.now }
{
    users.iter().all(|user| is_user_named(user))
}

fn are_named(parts: &RealmParts) -> bool
    ensures { result ≡ are_named parts.now }
{
    is_named(&parts.name)
        && parts.flow.has_names()
        && have_names(parts.acr.as_slice())
        && have_names(parts.clients.as_slice())
        && are_users_named(parts.users.as_slice())
}

fn is_hash_kept(password: &Option<PasswordHash>) -> bool
    ensures { result ≡ option_map_or is_hash password.now true }
{
    match password {
        Some(hash) => hash.is_in_range(),
        None => true,
    }
}

fn is_otp_kept(otp: &Option<OtpSecret>) -> bool
    ensures { result ≡ option_map_or is_otp_key otp.now true }
{
    match otp {
        Some(secret) => is_otp_key(secret.key()),
        None => true,
    }
}

fn are_codes_kept(recovery: &Option<RecoveryDigests>) -> bool
    ensures { result ≡ option_map_or are_recovery_digests recovery.now true }
{
    match recovery {
        Some(codes) => are_recovery_digests(codes.digests()),
        None => true,
    }
}

fn has_secrets_in_range(user: &RealmUser) -> bool
    ensures { result ≡ has_secrets_in_range user.now }
{
    is_hash_kept(&user.password) && is_otp_kept(&user.otp) && are_codes_kept(&user.recovery)
}

fn have_secrets_in_range(users: &[RealmUser]) -> bool
    ensures { result ≡ list_all has_secrets_in_range users.now }
{
    users.iter().all(|user| has_secrets_in_range(user))
}

fn are_secrets(parts: &RealmParts) -> bool
    ensures { result ≡ are_secrets parts.now }
{
    parts.admin_key.len() == 32 && have_secrets_in_range(parts.users.as_slice())
}

/// Whether the parts keep the rules and the ranges of a realm.
#[tactic(auto, unfolding(crate::specs::Realm::is_realm))]
pub(crate) fn is_realm(alloc: Global, parts: &RealmParts) -> Result<bool, Memory>
    ensures { IfOk result (λ kept. kept ≡ is_realm parts.now) }
{
    Ok(
        are_numbers(parts)
            && parts.flow.has_levels_in_range()
            && are_levels(&parts.flow, parts.acr.as_slice())
            && are_clients(alloc, &parts.flow, parts.clients.as_slice())?
            && are_users(alloc, parts.users.as_slice())?
            && are_named(parts)
            && are_secrets(parts),
    )
}

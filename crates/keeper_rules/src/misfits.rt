ghost use Rattle.std.specs.Prelude.{◌≡◌, ◌<◌, ◌≤◌, ◌-◌, ◌^◌, length, map, IfOk, IfSome};
ghost use Rattle.keeper_rules.specs.Misfits.{broken, has_no_rows, mark_misfit, realm_misfit, account_misfit, secret_misfit, session_misfit, token_misfit, late_misfit};
ghost use Rattle.keeper_rules.specs.Misfits.{first_failing, second_realm, kind_number, holder_of, place_in, is_timely, late_row, out_of_range, misfit_in_order, misfit_of, foreign_of};
ghost use Rattle.keeper_rules.specs.Rows.{is_realm_row};
ghost use Rattle.keeper_rules.specs.Misfits.{users_misfit, repeated_name, repeated_holder, repeated_serial};
ghost use Rattle.std.specs.Option.{option_or};

use crate::holder::Holder;
use crate::misfit::Misfit;
use crate::order::{are_in_order, tables_in_order};
use crate::repeats::{earlier, first_repeat};
use crate::rows::{first_unfit, is_mark, is_realm_row};
use crate::stamp::Stamp;
use crate::stamps::stamps_of;
use crate::users::first_userless;
use conditions::SecretKind;
use keeper_columns::{is_above, is_step_above, natural, secret_kind};
use keeper_rows::{AccountRow, MarkRow, RealmRow, SecretRow, Tables};
use login_base::Memory;
use std::alloc::Global;

/// A row at a place breaks a rule.
fn broken(rule: u32, place: Option<usize>) -> Option<Misfit>
    requires { IfSome place (λ at. at < 2 ^ 64 - 1) }
    ensures { result ≡ broken rule place }
{
    match place {
        Some(at) => Some(Misfit {
            rule,
            row: at as u64 + 1,
        }),
        None => None,
    }
}

// ---- marks and realms

fn has_no_rows(tables: &Tables) -> bool
    ensures { result ≡ has_no_rows tables.now }
{
    tables.realms.len() == 0
        && tables.accounts.len() == 0
        && tables.secrets.len() == 0
        && tables.sessions.len() == 0
        && tables.tokens.len() == 0
        && tables.marks.len() == 0
}

fn mark_misfit(tables: &Tables) -> Option<Misfit>
    ensures { result ≡ mark_misfit tables.now }
{
    if tables.marks.len() == 1 || has_no_rows(tables) {
        None
    } else {
        Some(Misfit { rule: 1, row: 1 })
    }
}

fn first_bad_realm(realms: &[RealmRow]) -> Option<usize>
    ensures place { result ≡ first_failing is_realm_row realms.now }
    ensures within { IfSome result (λ at. at < length realms.now) }
{
    realms.iter().position(|realm| !is_realm_row(realm))
}

fn second_realm(realms: &[RealmRow]) -> Option<usize>
    ensures place { result ≡ second_realm realms.now }
    ensures within { IfSome result (λ at. at < length realms.now) }
{
    if 2 <= realms.len() { Some(1) } else { None }
}

fn realm_misfit(tables: &Tables) -> Option<Misfit>
    ensures { result ≡ realm_misfit tables.now }
{
    let realms = tables.realms.as_slice();
    broken(2, earlier(first_bad_realm(realms), second_realm(realms)))
}

// ---- accounts and what users have

fn names_of(alloc: Global, accounts: &[AccountRow]) -> Result<Vec<&[u8]>, Memory>
    ensures { IfOk result (λ names. map (λ name. name.now) names.items ≡ map (λ account. account.name) accounts.now) }
{
    let mut names = Vec::new(alloc);
    for account in accounts {
        names.push(account.name.as_bytes())?;
    }
    Ok(names)
}

fn repeated_name(alloc: Global, accounts: &[AccountRow]) -> Result<Option<usize>, Memory>
    ensures ok { IfOk result (λ place. place ≡ repeated_name accounts.now) }
    ensures within { IfOk result (λ place. IfSome place (λ at. at < length accounts.now)) }
{
    let names = names_of(alloc, accounts)?;
    first_repeat(alloc, names.as_slice())
}

fn account_misfit(alloc: Global, tables: &Tables) -> Result<Option<Misfit>, Memory>
    ensures { IfOk result (λ misfit. misfit ≡ account_misfit tables.now) }
{
    let accounts = tables.accounts.as_slice();
    let unfit = first_unfit(alloc, accounts)?;
    let repeated = repeated_name(alloc, accounts)?;
    Ok(broken(3, earlier(unfit, repeated)))
}

fn kind_number(kind: Option<SecretKind>) -> u8
    ensures { result ≡ kind_number kind }
{
    match kind {
        None => 0,
        Some(SecretKind::Password) => 1,
        Some(SecretKind::Otp) => 2,
        Some(SecretKind::Recovery) => 3,
    }
}

/// A secret's user, and the number of its kind.
fn holder_of(row: &SecretRow) -> Holder
    ensures { result ≡ holder_of row.now }
{
    Holder {
        user: natural(&row.user),
        kind: kind_number(secret_kind(row.kind.as_bytes())),
    }
}

fn holders_of(alloc: Global, secrets: &[SecretRow]) -> Result<Vec<Holder>, Memory>
    ensures { IfOk result (λ holders. holders.items ≡ map holder_of secrets.now) }
{
    Ok(secrets.iter().map(|row| holder_of(row)).collect(alloc)?)
}

fn repeated_holder(alloc: Global, secrets: &[SecretRow]) -> Result<Option<usize>, Memory>
    ensures ok { IfOk result (λ place. place ≡ repeated_holder secrets.now) }
    ensures within { IfOk result (λ place. IfSome place (λ at. at < length secrets.now)) }
{
    let holders = holders_of(alloc, secrets)?;
    first_repeat(alloc, holders.as_slice())
}

fn secret_misfit(alloc: Global, tables: &Tables) -> Result<Option<Misfit>, Memory>
    ensures { IfOk result (λ misfit. misfit ≡ secret_misfit tables.now) }
{
    let secrets = tables.secrets.as_slice();
    let unfit = first_unfit(alloc, secrets)?;
    let userless = first_userless(alloc, tables.accounts.as_slice(), secrets)?;
    let repeated = repeated_holder(alloc, secrets)?;
    Ok(broken(4, earlier(unfit, earlier(userless, repeated))))
}

fn session_misfit(alloc: Global, tables: &Tables) -> Result<Option<Misfit>, Memory>
    ensures { IfOk result (λ misfit. misfit ≡ session_misfit tables.now) }
{
    let sessions = tables.sessions.as_slice();
    let unfit = first_unfit(alloc, sessions)?;
    let userless = first_userless(alloc, tables.accounts.as_slice(), sessions)?;
    Ok(broken(5, earlier(unfit, userless)))
}

fn token_misfit(alloc: Global, tables: &Tables) -> Result<Option<Misfit>, Memory>
    ensures { IfOk result (λ misfit. misfit ≡ token_misfit tables.now) }
{
    let tokens = tables.tokens.as_slice();
    let unfit = first_unfit(alloc, tokens)?;
    let userless = first_userless(alloc, tables.accounts.as_slice(), tokens)?;
    Ok(broken(6, earlier(unfit, userless)))
}

// ---- what the mark row bounds

/// Whether the mark's serial and moment have come as far as those of a row.
fn is_timely(mark: &MarkRow, stamp: &Stamp) -> bool
    ensures { result ≡ is_timely mark.now stamp.now }
{
    !is_above(stamp.serial, &mark.serial)
        && !stamp
            .moment
            .is_some_and(|moment| is_above(moment, &mark.moment))
        && !stamp
            .step
            .is_some_and(|step| is_step_above(step, &mark.moment))
}

fn first_late(mark: &MarkRow, stamps: &[Stamp]) -> Option<usize>
    ensures place { result ≡ first_failing (is_timely mark.now) stamps.now }
    ensures within { IfSome result (λ at. at < length stamps.now) }
{
    stamps.iter().position(|stamp| !is_timely(mark, stamp))
}

fn serials_of(alloc: Global, stamps: &[Stamp]) -> Result<Vec<u64>, Memory>
    ensures { IfOk result (λ serials. serials.items ≡ map (λ stamp. stamp.serial) stamps.now) }
{
    Ok(stamps.iter().map(|stamp| stamp.serial).collect(alloc)?)
}

fn repeated_serial(alloc: Global, stamps: &[Stamp]) -> Result<Option<usize>, Memory>
    ensures ok { IfOk result (λ place. place ≡ repeated_serial stamps.now) }
    ensures within { IfOk result (λ place. IfSome place (λ at. at < length stamps.now)) }
{
    let serials = serials_of(alloc, stamps)?;
    first_repeat(alloc, serials.as_slice())
}

/// The place in its table of the row at a place in all of them.
fn place_in(tables: &Tables, at: usize) -> usize
    ensures place { result ≡ place_in tables.now at }
    ensures within { result ≤ at }
{
    if at < tables.accounts.len() {
        return at;
    }
    let secret = at - tables.accounts.len();
    if secret < tables.secrets.len() {
        return secret;
    }
    let session = secret - tables.secrets.len();
    if session < tables.sessions.len() {
        return session;
    }
    session - tables.sessions.len()
}

fn late_row(alloc: Global, mark: &MarkRow, tables: &Tables) -> Result<Option<usize>, Memory>
    ensures ok { IfOk result (λ place. place ≡ late_row mark.now tables.now) }
    ensures within { IfOk result (λ place. IfSome place (λ at. at < 2 ^ 64 - 1)) }
{
    let stamps = stamps_of(alloc, tables)?;
    let repeated = repeated_serial(alloc, stamps.as_slice())?;
    match earlier(first_late(mark, stamps.as_slice()), repeated) {
        Some(at) => Ok(Some(place_in(tables, at))),
        None => Ok(None),
    }
}

fn late_or_out_of_range(late: Option<usize>, mark: &MarkRow) -> Option<usize>
    requires { IfSome late (λ at. at < 2 ^ 64 - 1) }
    ensures place { result ≡ option_or late (out_of_range mark.now) }
    ensures within { IfSome result (λ at. at < 2 ^ 64 - 1) }
{
    match late {
        Some(at) => Some(at),
        None if is_mark(mark) => None,
        None => Some(0),
    }
}

fn late_misfit(alloc: Global, tables: &Tables) -> Result<Option<Misfit>, Memory>
    ensures { IfOk result (λ misfit. misfit ≡ late_misfit tables.now) }
{
    match tables.marks.as_slice() {
        [] => Ok(None),
        [mark, ..] => {
            let late = late_row(alloc, mark, tables)?;
            Ok(broken(7, late_or_out_of_range(late, mark)))
        }
    }
}

// ---- all rules

/// The first broken rule of what users have, from the accounts on.
fn users_misfit(alloc: Global, tables: &Tables) -> Result<Option<Misfit>, Memory>
    ensures { IfOk result (λ misfit. misfit ≡ users_misfit tables.now) }
{
    if let Some(misfit) = account_misfit(alloc, tables)? {
        return Ok(Some(misfit));
    }
    if let Some(misfit) = secret_misfit(alloc, tables)? {
        return Ok(Some(misfit));
    }
    if let Some(misfit) = session_misfit(alloc, tables)? {
        return Ok(Some(misfit));
    }
    if let Some(misfit) = token_misfit(alloc, tables)? {
        return Ok(Some(misfit));
    }
    late_misfit(alloc, tables)
}

/// The first broken rule of tables whose rows are in the order of their keys.
#[tactic(auto, unfolding(crate::specs::Misfits::misfit_in_order))]
fn misfit_in_order(alloc: Global, tables: &Tables) -> Result<Option<Misfit>, Memory>
    ensures { IfOk result (λ misfit. misfit ≡ misfit_in_order tables.now) }
{
    if let Some(misfit) = mark_misfit(tables) {
        return Ok(Some(misfit));
    }
    if let Some(misfit) = realm_misfit(tables) {
        return Ok(Some(misfit));
    }
    users_misfit(alloc, tables)
}

/// The first rule that the tables break, and the number of the first row that breaks it; none
/// where they keep all rules.
#[tactic(auto, unfolding(crate::specs::Misfits::misfit_of))]
pub fn misfit_of(alloc: Global, tables: &Tables) -> Result<Option<Misfit>, Memory>
    ensures ok { IfOk result (λ misfit. misfit ≡ misfit_of tables.now) }
{
    if are_in_order(tables) {
        return misfit_in_order(alloc, tables);
    }
    let ordered = tables_in_order(alloc, tables)?;
    misfit_in_order(alloc, &ordered)
}

/// The schema number of the one mark row, where there is one and it isn't 1.
pub fn foreign_of(tables: &Tables) -> Option<i64>
    ensures value { result ≡ foreign_of tables.now }
{
    match tables.marks.as_slice() {
        [mark] if mark.schema != 1 => Some(mark.schema),
        _ => None,
    }
}

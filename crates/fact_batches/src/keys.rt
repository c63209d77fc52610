ghost use Rattle.std.specs.Prelude.{◌≡◌, IfOk, OnOk};
ghost use Rattle.std.specs.List.{list_any};
ghost use Rattle.fact_batches.specs.Touched.{same_key, account_keys, secret_keys, former_keys, touched_by, noted, all_noted, touched};

use fact_columns::id_column;
use fact_rows::secret_serial;
use fact_scans::last_version;
use facts::{Fact, Facts};
use keeper_rows::RowKey;
use login_base::{Memory, Steps, UserId};
use std::alloc::Global;
use std::sync::ledger::Ledger;

fn same_key(key: &RowKey, other: &RowKey) -> bool
    ensures { result ≡ same_key key.now other.now }
{
    match (key, other) {
        (RowKey::Realm(a), RowKey::Realm(b)) => a == b,
        (RowKey::Account(a), RowKey::Account(b)) => a == b,
        (RowKey::Secret(a), RowKey::Secret(b)) => a == b,
        (RowKey::Session(a), RowKey::Session(b)) => a == b,
        (RowKey::Token(a), RowKey::Token(b)) => a == b,
        (RowKey::Mark, RowKey::Mark) => true,
        _ => false,
    }
}

fn is_noted(keys: &[RowKey], key: &RowKey) -> bool
    ensures { result ≡ list_any (same_key key.now) keys.now }
{
    keys.iter().any(|known| same_key(key, known))
}

/// Notes a key, unless it is there.
fn note(keys: &mut Vec<RowKey>, key: RowKey) -> Result<(), Memory>
    ensures { OnOk result (keys.new.items ≡ noted keys.old.items key) }
{
    if !is_noted(keys.as_slice(), &key) {
        keys.push(key)?;
    }
    Ok(())
}

/// Notes an account's key, where a column holds it.
fn note_account(keys: &mut Vec<RowKey>, user: &UserId) -> Result<(), Memory>
    ensures { OnOk result (keys.new.items ≡ all_noted keys.old.items (account_keys user.now)) }
{
    match i64::try_from(user.0) {
        Ok(id) => note(keys, RowKey::Account(id)),
        Err(_) => Ok(()),
    }
}

/// Notes a secret's key, where a column holds it.
fn note_secret(keys: &mut Vec<RowKey>, serial: u64) -> Result<(), Memory>
    ensures { OnOk result (keys.new.items ≡ all_noted keys.old.items (secret_keys serial)) }
{
    match i64::try_from(serial) {
        Ok(serial) => note(keys, RowKey::Secret(serial)),
        Err(_) => Ok(()),
    }
}

/// Notes the key of a secret that there was.
fn note_former(keys: &mut Vec<RowKey>, serial: Option<u64>) -> Result<(), Memory>
    ensures { OnOk result (keys.new.items ≡ all_noted keys.old.items (former_keys serial)) }
{
    match serial {
        Some(serial) => note_secret(keys, serial),
        None => Ok(()),
    }
}

/// Notes the keys of the rows that a fact behind these changes.
fn note_fact<L: Ledger>(
    alloc: Global,
    keys: &mut Vec<RowKey>,
    before: &Facts<'_>,
    fact: &Fact,
    steps: &mut Steps<L>,
) -> Result<(), Memory>
    ensures { OnOk result (keys.new.items ≡ all_noted keys.old.items (touched_by before.now fact.now)) }
{
    match fact {
        Fact::RealmPut { version, .. } => {
            note(keys, RowKey::Realm(last_version(before)))?;
            note(keys, RowKey::Realm(*version))
        }
        Fact::SecretSet {
            user,
            kind,
            serial,
            ..
        } => {
            note_former(keys, secret_serial(before, *user, *kind, steps))?;
            note_secret(keys, *serial)
        }
        Fact::UserPut { user, .. }
        | Fact::ActionSet { user, .. }
        | Fact::ActionDone { user, .. }
        | Fact::Enabled { user }
        | Fact::Disabled { user }
        | Fact::Failed { user, .. }
        | Fact::Completed { user, .. } => note_account(keys, user),
        Fact::SpentStep { credential, .. } | Fact::SpentRecovery { credential, .. } => {
            note_secret(keys, *credential)
        }
        Fact::TokenMade { key, .. } | Fact::SpentToken { key } => {
            note(keys, RowKey::Token(id_column(alloc, &key.0)?))
        }
        Fact::Session { session, .. }
        | Fact::Seen { session, .. }
        | Fact::Level { session, .. }
        | Fact::SessionEnd { session } => {
            note(keys, RowKey::Session(id_column(alloc, &session.0)?))
        }
        Fact::Opened { .. }
        | Fact::Rendered { .. }
        | Fact::Named { .. }
        | Fact::Passed { .. }
        | Fact::Standing { .. }
        | Fact::Mark { .. } => Ok(()),
    }
}

/// The keys of the rows that the added facts change, each once.
#[tactic(auto, unfolding(crate::specs::Touched::touched))]
pub(crate) fn touched<L: Ledger>(
    alloc: Global,
    before: &Facts<'_>,
    added: &[Fact],
    steps: &mut Steps<L>,
) -> Result<Vec<RowKey>, Memory>
    ensures { IfOk result (λ keys. keys.items ≡ touched before.now added.now) }
{
    let mut keys = Vec::new(alloc);
    for fact in added {
        note_fact(alloc, &mut keys, before, fact, steps)?;
    }
    Ok(keys)
}

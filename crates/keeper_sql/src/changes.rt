ghost use Rattle.std.specs.Prelude.{◌≡◌, pos, IfOk, IsTrue, OnOk, OnErr};
ghost use Rattle.keeper_rows.specs.Applied.{changed, put_row, drop_row};
ghost use Rattle.keeper_rows.specs.declared.change.Row.TheVariants as rows;
ghost use Rattle.keeper_rows.specs.declared.change.RowKey.TheVariants as keys;
ghost use Rattle.sqlite.specs.Held.{state};
ghost use Rattle.sqlite.specs.State.{HasCleanDisk, Survives};
ghost use Rattle.sql_base.specs.Ready.{IsReady, Changes};
ghost use Rattle.sql_base.specs.Told.{tables_in};
ghost use Rattle.keeper_sql.specs.Committed.{IsRefused};

use keeper_rows::{Change, Row, RowKey};
use realm_data::Realm;
use realm_print::print_realm;
use sql_accounts::{
    drop_account, drop_mark, drop_realm, drop_secret, put_account, put_mark, put_realm, put_secret,
};
use sql_base::Fault;
use sql_sessions::{drop_session, drop_token, put_session, put_token};
use sqlite::{Alter, Transaction};
use std::alloc::Global;
use std::str::from_utf8;

/// A version as the store has it.
fn stored(version: u64) -> Result<i64, Fault>
    ensures value { IfOk result (λ number. number ≡ pos version) }
{
    match i64::try_from(version) {
        Ok(number) => Ok(number),
        Err(_) => Err(Fault::Failed),
    }
}

/// Puts a realm by its version, printed as a realm file.
fn put_printed<S: Alter>(
    alloc: Global,
    tx: &mut Transaction<'_, S>,
    version: u64,
    realm: &Realm,
) -> Result<(), Fault>
    requires ready { HasCleanDisk (state S.Store tx.old.conn.now) → IsReady (state S.Store tx.old.conn.now) }
    requires opened { HasCleanDisk (state S.Store tx.old.conn.now) → IsTrue (state S.Store tx.old.conn.now).is_open }
    ensures same_reference { tx.new.conn.ghost_name ≡ tx.old.conn.ghost_name }
    ensures ok { HasCleanDisk (state S.Store tx.new.conn.now) → OnOk result
        (Changes (state S.Store tx.old.conn.now) (state S.Store tx.new.conn.now)
        (put_row (rows.Realm version realm.now) (tables_in (state S.Store tx.old.conn.now).now.trees))) }
    ensures err { HasCleanDisk (state S.Store tx.new.conn.now) → OnErr result
        (IsRefused (state S.Store tx.old.conn.now) (state S.Store tx.new.conn.now)) }
    ensures survives { Survives (state S.Store tx.old.conn.now) (state S.Store tx.new.conn.now) (λ _. ⊥) }
{
    let version = stored(version)?;
    let text = print_realm(alloc, realm)?;
    match from_utf8(text.as_slice()) {
        Ok(text) => put_realm(tx, version, text),
        Err(_) => Err(Fault::Failed),
    }
}

/// Drops the realm of a version.
fn drop_version<S: Alter>(tx: &mut Transaction<'_, S>, version: u64) -> Result<(), Fault>
    requires ready { HasCleanDisk (state S.Store tx.old.conn.now) → IsReady (state S.Store tx.old.conn.now) }
    requires opened { HasCleanDisk (state S.Store tx.old.conn.now) → IsTrue (state S.Store tx.old.conn.now).is_open }
    ensures same_reference { tx.new.conn.ghost_name ≡ tx.old.conn.ghost_name }
    ensures ok { HasCleanDisk (state S.Store tx.new.conn.now) → OnOk result
        (Changes (state S.Store tx.old.conn.now) (state S.Store tx.new.conn.now)
        (drop_row (keys.Realm version) (tables_in (state S.Store tx.old.conn.now).now.trees))) }
    ensures err { HasCleanDisk (state S.Store tx.new.conn.now) → OnErr result
        (IsRefused (state S.Store tx.old.conn.now) (state S.Store tx.new.conn.now)) }
    ensures survives { Survives (state S.Store tx.old.conn.now) (state S.Store tx.new.conn.now) (λ _. ⊥) }
{
    let version = stored(version)?;
    drop_realm(tx, version)
}

/// Puts a row into its table.
fn put<S: Alter>(alloc: Global, tx: &mut Transaction<'_, S>, row: &Row) -> Result<(), Fault>
    requires ready { HasCleanDisk (state S.Store tx.old.conn.now) → IsReady (state S.Store tx.old.conn.now) }
    requires opened { HasCleanDisk (state S.Store tx.old.conn.now) → IsTrue (state S.Store tx.old.conn.now).is_open }
    ensures same_reference { tx.new.conn.ghost_name ≡ tx.old.conn.ghost_name }
    ensures ok { HasCleanDisk (state S.Store tx.new.conn.now) → OnOk result
        (Changes (state S.Store tx.old.conn.now) (state S.Store tx.new.conn.now)
        (put_row row.now (tables_in (state S.Store tx.old.conn.now).now.trees))) }
    ensures err { HasCleanDisk (state S.Store tx.new.conn.now) → OnErr result
        (IsRefused (state S.Store tx.old.conn.now) (state S.Store tx.new.conn.now)) }
    ensures survives { Survives (state S.Store tx.old.conn.now) (state S.Store tx.new.conn.now) (λ _. ⊥) }
{
    match row {
        Row::Realm { version, realm } => put_printed(alloc, tx, *version, realm),
        Row::Account(row) => put_account(tx, row),
        Row::Secret(row) => put_secret(tx, row),
        Row::Session(row) => put_session(tx, row),
        Row::Token(row) => put_token(tx, row),
        Row::Mark(row) => put_mark(tx, row),
    }
}

/// Drops the row of a key from its table.
fn drop_key<S: Alter>(tx: &mut Transaction<'_, S>, key: &RowKey) -> Result<(), Fault>
    requires ready { HasCleanDisk (state S.Store tx.old.conn.now) → IsReady (state S.Store tx.old.conn.now) }
    requires opened { HasCleanDisk (state S.Store tx.old.conn.now) → IsTrue (state S.Store tx.old.conn.now).is_open }
    ensures same_reference { tx.new.conn.ghost_name ≡ tx.old.conn.ghost_name }
    ensures ok { HasCleanDisk (state S.Store tx.new.conn.now) → OnOk result
        (Changes (state S.Store tx.old.conn.now) (state S.Store tx.new.conn.now)
        (drop_row key.now (tables_in (state S.Store tx.old.conn.now).now.trees))) }
    ensures err { HasCleanDisk (state S.Store tx.new.conn.now) → OnErr result
        (IsRefused (state S.Store tx.old.conn.now) (state S.Store tx.new.conn.now)) }
    ensures survives { Survives (state S.Store tx.old.conn.now) (state S.Store tx.new.conn.now) (λ _. ⊥) }
{
    match key {
        RowKey::Realm(version) => drop_version(tx, *version),
        RowKey::Account(id) => drop_account(tx, *id),
        RowKey::Secret(serial) => drop_secret(tx, *serial),
        RowKey::Session(id) => drop_session(tx, id),
        RowKey::Token(key) => drop_token(tx, key),
        RowKey::Mark => drop_mark(tx),
    }
}

/// Makes one change.
pub(crate) fn make<S: Alter>(
    alloc: Global,
    tx: &mut Transaction<'_, S>,
    change: &Change,
) -> Result<(), Fault>
    requires ready { HasCleanDisk (state S.Store tx.old.conn.now) → IsReady (state S.Store tx.old.conn.now) }
    requires opened { HasCleanDisk (state S.Store tx.old.conn.now) → IsTrue (state S.Store tx.old.conn.now).is_open }
    ensures same_reference { tx.new.conn.ghost_name ≡ tx.old.conn.ghost_name }
    ensures ok { HasCleanDisk (state S.Store tx.new.conn.now) → OnOk result
        (Changes (state S.Store tx.old.conn.now) (state S.Store tx.new.conn.now)
        (changed (tables_in (state S.Store tx.old.conn.now).now.trees) change.now)) }
    ensures err { HasCleanDisk (state S.Store tx.new.conn.now) → OnErr result
        (IsRefused (state S.Store tx.old.conn.now) (state S.Store tx.new.conn.now)) }
    ensures survives { Survives (state S.Store tx.old.conn.now) (state S.Store tx.new.conn.now) (λ _. ⊥) }
{
    match change {
        Change::Put(row) => put(alloc, tx, row),
        Change::Drop(key) => drop_key(tx, key),
    }
}

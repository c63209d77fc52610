ghost use Rattle.std.specs.Prelude.{◌≡◌, ◌⊎◌, ◌<◌, IfOk, IfSome, OnOk, Err, None, not, length, map, unwrap_or};
ghost use Rattle.std.specs.List.{AllByRecursion, position};
ghost use Rattle.sqlite.specs.Held.{state};
ghost use Rattle.sqlite.specs.Order.{column};
ghost use Rattle.sqlite.specs.State.{HasCleanDisk, IsUnchanged, Survives};
ghost use Rattle.realm_data.specs.RealmBuiltin.{builtin_realm};
ghost use Rattle.realm_file.specs.RealmFile.{realm_read};
ghost use Rattle.sql_base.specs.Ready.{AreNumbered, IsNatural};
ghost use Rattle.sql_base.specs.Schema.{schema};
ghost use Rattle.sql_base.specs.Steps.{IsBegun, IsRefused};
ghost use Rattle.sql_base.specs.Told.{nat_of, realm_of, tables_in, text_at};
ghost use Rattle.sql_base.specs.declared.fault.Fault.TheVariants as faults;
ghost use Rattle.sql_loads.specs.Fits.{HoldsAnyText};
ghost use Rattle.sql_loads.specs.Loads.{by_rowid, first_failing, tells_realm, RealmsFit};
ghost use Rattle.sql_loads.specs.Values.{if_read, is_told, realm_row};

use crate::reading::{Shown, number_at, number_of, read_rising};
use crate::stored::StoredRealm;
use keeper_rows::RealmRow;
use login_base::Sequence;
use realm_data::Realm;
use realm_file::{RealmFault, read_realm};
use sql_accounts::select_realms;
use sql_base::Fault;
use sqlite::{Alter, Row, Transaction};
use sqlite_value::value::ValueRef;
use std::alloc::Global;

/// Realms in the order of their versions.
#[derive(Debug, Drop)]
pub struct Realms {
    /// The built-in realm stands for a text that is no realm's, and 0 for a version below 0.
    pub rows: Sequence<RealmRow>,
    /// The number, from 1, of the first row that tells no realm: its version is below 0, or its
    /// text is no realm's.
    pub untold: Option<u64>,
}

/// The realm that a text is, or `None` where it is no realm's.
fn realm_in(alloc: Global, text: &[u8]) -> Result<Option<Realm>, Fault>
    ensures told { IfOk result (λ realm. realm ≡ if_read (realm_read text.now)) }
    ensures cause { ¬ (result ≡ Err faults.Failed) }
{
    match read_realm(alloc, text) {
        Ok(realm) => Ok(Some(realm)),
        Err(RealmFault::Memory) => Err(Fault::Memory),
        Err(_) => Ok(None),
    }
}

/// The realm whose text stands in a column, or `None` where it is no realm's.
fn realm_at(alloc: Global, row: &Row, at: usize) -> Result<Option<Realm>, Fault>
    ensures told { IfOk result (λ realm. realm ≡ if_read (realm_read (text_at row.now at))) }
    ensures fits { OnOk result (HoldsAnyText (column row.now at)) }
    ensures within { OnOk result (at < length row.now) }
    ensures cause { result ≡ Err faults.Failed → at < length row.now → ¬ HoldsAnyText (column row.now at) }
{
    match row.get_ref(at)? {
        ValueRef::Text(text) => realm_in(alloc, text),
        _ => Err(Fault::Failed),
    }
}

impl Shown for StoredRealm {
    ghost use Rattle.sql_loads.specs.Values.{realm_in};
    ghost use Rattle.sql_loads.specs.Fits.{RealmFits};

    ghost told_by = { realm_in };

    ghost fits = { RealmFits };

    fn read(alloc: Global, row: &Row) -> Result<StoredRealm, Fault> {
        Ok(StoredRealm {
            version: number_at(row, 0)?,
            realm: realm_at(alloc, row, 1)?,
        })
    }
}

fn or_builtin(alloc: Global, realm: Option<Realm>) -> Result<Realm, Fault>
    ensures told { IfOk result (λ it. it ≡ unwrap_or realm builtin_realm) }
    ensures cause { ¬ (result ≡ Err faults.Failed) }
{
    match realm {
        Some(realm) => Ok(realm),
        None => Ok(Realm::builtin(alloc)?),
    }
}

/// A realm's row, with the built-in realm where none is told.
fn row_of(alloc: Global, stored: StoredRealm) -> Result<RealmRow, Fault>
    ensures told { IfOk result (λ row. row ≡ realm_row stored) }
    ensures cause { ¬ (result ≡ Err faults.Failed) }
{
    let StoredRealm { version, realm } = stored;
    Ok(RealmRow {
        version: natural(version),
        realm: or_builtin(alloc, realm)?,
    })
}

fn natural(number: i64) -> u64
    ensures value { result ≡ nat_of number }
{
    if number < 0 { 0 } else { number as u64 }
}

fn is_told(stored: &StoredRealm) -> bool
    ensures value { result ≡ is_told stored.now }
{
    0 <= stored.version && stored.realm.is_some()
}

fn first_untold(realms: &[StoredRealm]) -> Option<usize>
    ensures place { result ≡ position (λ realm. not (is_told realm)) realms.now }
    ensures within { IfSome result (λ at. at < length realms.now) }
{
    realms.iter().position(|realm| !is_told(realm))
}

fn rows_of(alloc: Global, realms: Sequence<StoredRealm>) -> Result<Sequence<RealmRow>, Fault>
    ensures told { IfOk result (λ rows. rows ≡ map realm_row realms) }
    ensures cause { ¬ (result ≡ Err faults.Failed) }
{
    let mut rows = Sequence::new(alloc);
    for stored in realms.into_vec() {
        rows.push(row_of(alloc, stored)?)?;
    }
    Ok(rows)
}

/// The realms in the order of their versions, and the number of the first row that tells none.
pub fn load_realms<S: Alter>(alloc: Global, tx: &mut Transaction<'_, S>) -> Result<Realms, Fault>
    requires begun { HasCleanDisk (state S.Store tx.old.conn.now) → IsBegun schema (state S.Store tx.old.conn.now) }
    ensures same_reference { tx.new.conn.ghost_name ≡ tx.old.conn.ghost_name }
    ensures rows { HasCleanDisk (state S.Store tx.new.conn.now) → IfOk result (λ realms.
        realms.rows ≡ map realm_of (by_rowid ((state S.Store tx.old.conn.now).now.trees 0))) }
    ensures untold { HasCleanDisk (state S.Store tx.new.conn.now) → IfOk result (λ realms.
        realms.untold ≡ first_failing tells_realm (by_rowid ((state S.Store tx.old.conn.now).now.trees 0))) }
    ensures told { HasCleanDisk (state S.Store tx.new.conn.now) → IfOk result (λ realms.
        AllByRecursion IsNatural ((state S.Store tx.old.conn.now).now.trees 0)
        → realms.rows ≡ (tables_in (state S.Store tx.old.conn.now).now.trees).realms) }
    ensures kept { HasCleanDisk (state S.Store tx.new.conn.now) → OnOk result
        (AreNumbered ((state S.Store tx.old.conn.now).now.trees 0)) }
    ensures natural { HasCleanDisk (state S.Store tx.new.conn.now) → IfOk result (λ realms. realms.untold ≡ None
        → AllByRecursion IsNatural ((state S.Store tx.old.conn.now).now.trees 0)) }
    ensures same { HasCleanDisk (state S.Store tx.new.conn.now) → OnOk result
        (IsUnchanged (state S.Store tx.old.conn.now) (state S.Store tx.new.conn.now)) }
    ensures cause { HasCleanDisk (state S.Store tx.new.conn.now) → result ≡ Err faults.Failed
        → IsRefused (state S.Store tx.old.conn.now) (state S.Store tx.new.conn.now)
        ⊎ ¬ RealmsFit ((state S.Store tx.old.conn.now).now.trees 0) }
    ensures survives { Survives (state S.Store tx.old.conn.now) (state S.Store tx.new.conn.now) (λ _. ⊥) }
{
    let rows = select_realms(tx)?;
    let realms = read_rising(alloc, rows.as_slice())?;
    let untold = number_of(first_untold(realms.as_slice()));
    Ok(Realms {
        rows: rows_of(alloc, realms)?,
        untold,
    })
}

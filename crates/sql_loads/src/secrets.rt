ghost use Rattle.std.specs.Prelude.{◌≡◌, ◌⊎◌, IfOk, OnOk, Err};
ghost use Rattle.sqlite.specs.Held.{state};
ghost use Rattle.sqlite.specs.State.{HasCleanDisk, IsUnchanged, Survives};
ghost use Rattle.sql_base.specs.Told.{tables_in};
ghost use Rattle.sql_base.specs.declared.fault.Fault.TheVariants as faults;
ghost use Rattle.sql_base.specs.Schema.{schema};
ghost use Rattle.sql_base.specs.Steps.{IsBegun, IsRefused};
ghost use Rattle.sql_base.specs.Ready.{AreNumbered};
ghost use Rattle.sql_loads.specs.Loads.{SecretsFit};

use crate::reading::{Shown, bytes_at, number_at, read_rising, text_at};
use keeper_rows::SecretRow;
use login_base::Sequence;
use sql_accounts::select_secrets;
use sql_base::Fault;
use sqlite::{Alter, Row, Transaction};
use std::alloc::Global;

impl Shown for SecretRow {
    ghost use Rattle.sql_loads.specs.Values.{secret_in};
    ghost use Rattle.sql_loads.specs.Fits.{SecretFits};

    ghost told_by = { secret_in };

    ghost fits = { SecretFits };

    fn read(alloc: Global, row: &Row) -> Result<SecretRow, Fault> {
        Ok(SecretRow {
            serial: number_at(row, 0)?,
            user: number_at(row, 1)?,
            kind: text_at(alloc, row, 2)?,
            body: bytes_at(row, 3)?,
            spent: text_at(alloc, row, 4)?,
        })
    }
}

/// The secrets in the order of their serials.
pub fn load_secrets<S: Alter>(
    alloc: Global,
    tx: &mut Transaction<'_, S>,
) -> Result<Sequence<SecretRow>, Fault>
    requires begun { HasCleanDisk (state S.Store tx.old.conn.now) → IsBegun schema (state S.Store tx.old.conn.now) }
    ensures same_reference { tx.new.conn.ghost_name ≡ tx.old.conn.ghost_name }
    ensures told { HasCleanDisk (state S.Store tx.new.conn.now) → IfOk result (λ secrets.
        secrets ≡ (tables_in (state S.Store tx.old.conn.now).now.trees).secrets) }
    ensures kept { HasCleanDisk (state S.Store tx.new.conn.now) → OnOk result
        (AreNumbered ((state S.Store tx.old.conn.now).now.trees 3)) }
    ensures same { HasCleanDisk (state S.Store tx.new.conn.now) → OnOk result
        (IsUnchanged (state S.Store tx.old.conn.now) (state S.Store tx.new.conn.now)) }
    ensures cause { HasCleanDisk (state S.Store tx.new.conn.now) → result ≡ Err faults.Failed
        → IsRefused (state S.Store tx.old.conn.now) (state S.Store tx.new.conn.now)
        ⊎ ¬ SecretsFit ((state S.Store tx.old.conn.now).now.trees 3) }
    ensures survives { Survives (state S.Store tx.old.conn.now) (state S.Store tx.new.conn.now) (λ _. ⊥) }
{
    let rows = select_secrets(tx)?;
    read_rising(alloc, rows.as_slice())
}

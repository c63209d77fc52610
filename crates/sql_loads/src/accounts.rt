ghost use Rattle.std.specs.Prelude.{◌≡◌, ◌⊎◌, IfOk, OnOk, Err};
ghost use Rattle.sqlite.specs.Held.{state};
ghost use Rattle.sqlite.specs.State.{HasCleanDisk, IsUnchanged, Survives};
ghost use Rattle.sql_base.specs.Told.{tables_in};
ghost use Rattle.sql_base.specs.declared.fault.Fault.TheVariants as faults;
ghost use Rattle.sql_base.specs.Schema.{schema};
ghost use Rattle.sql_base.specs.Steps.{IsBegun, IsRefused};
ghost use Rattle.sql_base.specs.Ready.{AreNumbered};
ghost use Rattle.sql_loads.specs.Loads.{AccountsFit};

use crate::reading::{Shown, number_at, read_rising, text_at};
use keeper_rows::AccountRow;
use login_base::Sequence;
use sql_accounts::select_accounts;
use sql_base::Fault;
use sqlite::{Alter, Row, Transaction};
use std::alloc::Global;

impl Shown for AccountRow {
    ghost use Rattle.sql_loads.specs.Values.{account_in};
    ghost use Rattle.sql_loads.specs.Fits.{AccountFits};

    ghost told_by = { account_in };

    ghost fits = { AccountFits };

    fn read(alloc: Global, row: &Row) -> Result<AccountRow, Fault> {
        Ok(AccountRow {
            id: number_at(row, 0)?,
            name: text_at(alloc, row, 1)?,
            roles: text_at(alloc, row, 2)?,
            enabled: number_at(row, 3)?,
            count: number_at(row, 4)?,
            last: number_at(row, 5)?,
            until: number_at(row, 6)?,
            permanent: number_at(row, 7)?,
            actions: text_at(alloc, row, 8)?,
        })
    }
}

/// The accounts in the order of their ids.
pub fn load_accounts<S: Alter>(
    alloc: Global,
    tx: &mut Transaction<'_, S>,
) -> Result<Sequence<AccountRow>, Fault>
    requires begun { HasCleanDisk (state S.Store tx.old.conn.now) → IsBegun schema (state S.Store tx.old.conn.now) }
    ensures same_reference { tx.new.conn.ghost_name ≡ tx.old.conn.ghost_name }
    ensures told { HasCleanDisk (state S.Store tx.new.conn.now) → IfOk result (λ accounts.
        accounts ≡ (tables_in (state S.Store tx.old.conn.now).now.trees).accounts) }
    ensures kept { HasCleanDisk (state S.Store tx.new.conn.now) → OnOk result
        (AreNumbered ((state S.Store tx.old.conn.now).now.trees 1)) }
    ensures same { HasCleanDisk (state S.Store tx.new.conn.now) → OnOk result
        (IsUnchanged (state S.Store tx.old.conn.now) (state S.Store tx.new.conn.now)) }
    ensures cause { HasCleanDisk (state S.Store tx.new.conn.now) → result ≡ Err faults.Failed
        → IsRefused (state S.Store tx.old.conn.now) (state S.Store tx.new.conn.now)
        ⊎ ¬ AccountsFit ((state S.Store tx.old.conn.now).now.trees 1) }
    ensures survives { Survives (state S.Store tx.old.conn.now) (state S.Store tx.new.conn.now) (λ _. ⊥) }
{
    let rows = select_accounts(tx)?;
    read_rising(alloc, rows.as_slice())
}

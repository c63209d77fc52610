ghost use Rattle.std.specs.Prelude.{◌≡◌, ◌⊎◌, IfOk, OnOk, Err};
ghost use Rattle.sqlite.specs.Held.{state};
ghost use Rattle.sqlite.specs.State.{HasCleanDisk, IsUnchanged, Survives};
ghost use Rattle.sql_base.specs.Told.{tables_in};
ghost use Rattle.sql_base.specs.declared.fault.Fault.TheVariants as faults;
ghost use Rattle.sql_base.specs.Schema.{schema};
ghost use Rattle.sql_base.specs.Steps.{IsBegun, IsRefused};
ghost use Rattle.sql_loads.specs.Loads.{AreSessions, SessionsFit};

use crate::reading::{Shown, check_rowids, number_at, read_rising, text_at};
use keeper_rows::SessionRow;
use login_base::Sequence;
use sql_base::Fault;
use sql_sessions::select_sessions;
use sqlite::{Alter, Row, Transaction};
use std::alloc::Global;

impl Shown for SessionRow {
    ghost use Rattle.sql_sessions.specs.Values.{session_in};
    ghost use Rattle.sql_loads.specs.Fits.{SessionFits};

    ghost told_by = { session_in };

    ghost fits = { SessionFits };

    fn read(alloc: Global, row: &Row) -> Result<SessionRow, Fault> {
        Ok(SessionRow {
            id: text_at(alloc, row, 0)?,
            user: number_at(row, 1)?,
            opened: number_at(row, 2)?,
            seen: number_at(row, 3)?,
            idle: number_at(row, 4)?,
            max: number_at(row, 5)?,
            levels: text_at(alloc, row, 6)?,
        })
    }
}

/// The sessions in the order of their ids.
pub fn load_sessions<S: Alter>(
    alloc: Global,
    tx: &mut Transaction<'_, S>,
) -> Result<Sequence<SessionRow>, Fault>
    requires begun { HasCleanDisk (state S.Store tx.old.conn.now) → IsBegun schema (state S.Store tx.old.conn.now) }
    ensures same_reference { tx.new.conn.ghost_name ≡ tx.old.conn.ghost_name }
    ensures told { HasCleanDisk (state S.Store tx.new.conn.now) → IfOk result (λ sessions.
        sessions ≡ (tables_in (state S.Store tx.old.conn.now).now.trees).sessions) }
    ensures kept { HasCleanDisk (state S.Store tx.new.conn.now) → OnOk result
        (AreSessions ((state S.Store tx.old.conn.now).now.trees 5)) }
    ensures same { HasCleanDisk (state S.Store tx.new.conn.now) → OnOk result
        (IsUnchanged (state S.Store tx.old.conn.now) (state S.Store tx.new.conn.now)) }
    ensures cause { HasCleanDisk (state S.Store tx.new.conn.now) → result ≡ Err faults.Failed
        → IsRefused (state S.Store tx.old.conn.now) (state S.Store tx.new.conn.now)
        ⊎ ¬ SessionsFit ((state S.Store tx.old.conn.now).now.trees 5) }
    ensures survives { Survives (state S.Store tx.old.conn.now) (state S.Store tx.new.conn.now) (λ _. ⊥) }
{
    let rows = select_sessions(tx)?;
    let sessions = read_rising(alloc, rows.as_slice())?;
    check_rowids(alloc, rows.as_slice(), 7)?;
    Ok(sessions)
}

ghost use Rattle.std.specs.Prelude.{◌≡◌, ◌⊎◌, ◌<◌, IfOk, IfSome, OnOk, Err, None, not, length, map};
ghost use Rattle.std.specs.List.{AllByRecursion, position};
ghost use Rattle.sqlite.specs.Held.{state};
ghost use Rattle.sqlite.specs.State.{HasCleanDisk, IsUnchanged, Survives};
ghost use Rattle.sql_base.specs.Ready.{AreNumbered};
ghost use Rattle.sql_base.specs.declared.fault.Fault.TheVariants as faults;
ghost use Rattle.sql_base.specs.Schema.{schema};
ghost use Rattle.sql_base.specs.Steps.{IsBegun, IsRefused};
ghost use Rattle.sql_base.specs.Told.{mark_of, tables_in};
ghost use Rattle.sql_loads.specs.Loads.{by_rowid, first_failing, has_mark_key, HasMarkKey, MarksFit};
ghost use Rattle.sql_loads.specs.Values.{has_key_one, mark_row};

use crate::reading::{Shown, number_at, number_of, read_rising};
use crate::stored::StoredMark;
use keeper_rows::MarkRow;
use login_base::{Memory, Sequence};
use sql_accounts::select_marks;
use sql_base::Fault;
use sqlite::{Alter, Row, Transaction};
use std::alloc::Global;

/// Marks in the order of their keys.
#[derive(Debug, Drop)]
pub struct Marks {
    pub rows: Sequence<MarkRow>,
    /// The number, from 1, of the first row whose key isn't 1.
    pub unkeyed: Option<u64>,
}

impl Shown for StoredMark {
    ghost use Rattle.sql_loads.specs.Values.{mark_in};
    ghost use Rattle.sql_loads.specs.Fits.{MarkFits};

    ghost told_by = { mark_in };

    ghost fits = { MarkFits };

    fn read(_alloc: Global, row: &Row) -> Result<StoredMark, Fault> {
        Ok(StoredMark {
            one: number_at(row, 0)?,
            row: MarkRow {
                schema: number_at(row, 1)?,
                serial: number_at(row, 2)?,
                moment: number_at(row, 3)?,
            },
        })
    }
}

fn first_unkeyed(marks: &[StoredMark]) -> Option<usize>
    ensures place { result ≡ position (λ mark. not (has_key_one mark)) marks.now }
    ensures within { IfSome result (λ at. at < length marks.now) }
{
    marks.iter().position(|mark| !(mark.one == 1))
}

fn rows_of(alloc: Global, marks: &[StoredMark]) -> Result<Sequence<MarkRow>, Memory>
    ensures told { IfOk result (λ rows. rows ≡ map mark_row marks.now) }
{
    let mut rows = Sequence::new(alloc);
    for mark in marks {
        rows.push(mark.row)?;
    }
    Ok(rows)
}

/// The marks in the order of their keys, and the number of the first row whose key isn't 1.
pub fn load_marks<S: Alter>(alloc: Global, tx: &mut Transaction<'_, S>) -> Result<Marks, Fault>
    requires begun { HasCleanDisk (state S.Store tx.old.conn.now) → IsBegun schema (state S.Store tx.old.conn.now) }
    ensures same_reference { tx.new.conn.ghost_name ≡ tx.old.conn.ghost_name }
    ensures rows { HasCleanDisk (state S.Store tx.new.conn.now) → IfOk result (λ marks.
        marks.rows ≡ map mark_of (by_rowid ((state S.Store tx.old.conn.now).now.trees 9))) }
    ensures unkeyed { HasCleanDisk (state S.Store tx.new.conn.now) → IfOk result (λ marks.
        marks.unkeyed ≡ first_failing has_mark_key (by_rowid ((state S.Store tx.old.conn.now).now.trees 9))) }
    ensures told { HasCleanDisk (state S.Store tx.new.conn.now) → IfOk result (λ marks.
        AllByRecursion HasMarkKey ((state S.Store tx.old.conn.now).now.trees 9)
        → marks.rows ≡ (tables_in (state S.Store tx.old.conn.now).now.trees).marks) }
    ensures kept { HasCleanDisk (state S.Store tx.new.conn.now) → OnOk result
        (AreNumbered ((state S.Store tx.old.conn.now).now.trees 9)) }
    ensures keyed { HasCleanDisk (state S.Store tx.new.conn.now) → IfOk result (λ marks. marks.unkeyed ≡ None
        → AllByRecursion HasMarkKey ((state S.Store tx.old.conn.now).now.trees 9)) }
    ensures same { HasCleanDisk (state S.Store tx.new.conn.now) → OnOk result
        (IsUnchanged (state S.Store tx.old.conn.now) (state S.Store tx.new.conn.now)) }
    ensures cause { HasCleanDisk (state S.Store tx.new.conn.now) → result ≡ Err faults.Failed
        → IsRefused (state S.Store tx.old.conn.now) (state S.Store tx.new.conn.now)
        ⊎ ¬ MarksFit ((state S.Store tx.old.conn.now).now.trees 9) }
    ensures survives { Survives (state S.Store tx.old.conn.now) (state S.Store tx.new.conn.now) (λ _. ⊥) }
{
    let rows = select_marks(tx)?;
    let marks = read_rising(alloc, rows.as_slice())?;
    Ok(Marks {
        unkeyed: number_of(first_unkeyed(marks.as_slice())),
        rows: rows_of(alloc, marks.as_slice())?,
    })
}

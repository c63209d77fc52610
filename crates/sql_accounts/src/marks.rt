ghost use Rattle.std.specs.Prelude.{◌≡◌, ◌⊎◌, Err, IfOk, OnOk, OnErr};
ghost use Rattle.keeper_rows.specs.Applied.{put_row, drop_row};
ghost use Rattle.keeper_rows.specs.declared.change.Row.TheVariants as rows;
ghost use Rattle.keeper_rows.specs.declared.change.RowKey.TheVariants as keys;
ghost use Rattle.sqlite.specs.Held.{state};
ghost use Rattle.sqlite.specs.State.{HasCleanDisk, IsUnchanged, IsRolledBack, Survives};
ghost use Rattle.sql_base.specs.Schema.{schema_5, schema};
ghost use Rattle.sql_base.specs.Steps.{IsBegun, IsMade, IsRefused, AreListed};
ghost use Rattle.sql_base.specs.Ready.{IsReady, Changes};
ghost use Rattle.sql_base.specs.Told.{tables_in};
ghost use Rattle.sql_accounts.specs.Shown.{mark_shown};
ghost use Rattle.sql_base.specs.declared.fault.Fault.TheVariants as faults;

use keeper_rows::MarkRow;
use sql_base::Fault;
use sqlite::{Alter, Row, Transaction, params};

/// Makes the table of marks, behind all others.
pub fn create_marks<S: Alter>(tx: &mut Transaction<'_, S>) -> Result<(), Fault>
    requires begun { HasCleanDisk (state S.Store tx.old.conn.now) → IsBegun schema_5 (state S.Store tx.old.conn.now) }
    ensures same_reference { tx.new.conn.ghost_name ≡ tx.old.conn.ghost_name }
    ensures ok { HasCleanDisk (state S.Store tx.new.conn.now) → OnOk result
        (IsMade schema_5 schema (state S.Store tx.old.conn.now) (state S.Store tx.new.conn.now)) }
    ensures err { HasCleanDisk (state S.Store tx.new.conn.now) → OnErr result
        (IsUnchanged (state S.Store tx.old.conn.now) (state S.Store tx.new.conn.now)
        ⊎ IsRolledBack (state S.Store tx.old.conn.now) (state S.Store tx.new.conn.now)) }
    ensures survives { Survives (state S.Store tx.old.conn.now) (state S.Store tx.new.conn.now) (λ _. ⊥) }
{
    tx.execute(
        "CREATE TABLE mark (one INTEGER PRIMARY KEY, schema INTEGER NOT NULL, serial INTEGER NOT NULL, moment INTEGER NOT NULL) STRICT",
        &[],
    )?;
    Ok(())
}

/// The marks in the order of their keys.
pub fn select_marks<S: Alter>(tx: &mut Transaction<'_, S>) -> Result<Vec<Row>, Fault>
    requires begun { HasCleanDisk (state S.Store tx.old.conn.now) → IsBegun schema (state S.Store tx.old.conn.now) }
    ensures same_reference { tx.new.conn.ghost_name ≡ tx.old.conn.ghost_name }
    ensures ok { HasCleanDisk (state S.Store tx.new.conn.now) → IfOk result (λ rows.
        AreListed mark_shown ((state S.Store tx.old.conn.now).now.trees 9) rows.items) }
    ensures same { HasCleanDisk (state S.Store tx.new.conn.now) → OnOk result
        (IsUnchanged (state S.Store tx.old.conn.now) (state S.Store tx.new.conn.now)) }
    ensures cause { HasCleanDisk (state S.Store tx.new.conn.now) → result ≡ Err faults.Failed
        → IsRefused (state S.Store tx.old.conn.now) (state S.Store tx.new.conn.now) }
    ensures survives { Survives (state S.Store tx.old.conn.now) (state S.Store tx.new.conn.now) (λ _. ⊥) }
{
    Ok(tx.query_all(
        "SELECT one, schema, serial, moment FROM mark ORDER BY one",
        &[],
    )?)
}

/// Puts the mark row.
pub fn put_mark<S: Alter>(tx: &mut Transaction<'_, S>, row: &MarkRow) -> Result<(), Fault>
    requires ready { HasCleanDisk (state S.Store tx.old.conn.now) → IsReady (state S.Store tx.old.conn.now) }
    ensures same_reference { tx.new.conn.ghost_name ≡ tx.old.conn.ghost_name }
    ensures ok { HasCleanDisk (state S.Store tx.new.conn.now) → OnOk result
        (Changes (state S.Store tx.old.conn.now) (state S.Store tx.new.conn.now)
        (put_row (rows.Mark row.now) (tables_in (state S.Store tx.old.conn.now).now.trees))) }
    ensures err { HasCleanDisk (state S.Store tx.new.conn.now) → OnErr result
        (IsUnchanged (state S.Store tx.old.conn.now) (state S.Store tx.new.conn.now)
        ⊎ IsRolledBack (state S.Store tx.old.conn.now) (state S.Store tx.new.conn.now)) }
    ensures survives { Survives (state S.Store tx.old.conn.now) (state S.Store tx.new.conn.now) (λ _. ⊥) }
{
    tx.execute(
        "INSERT INTO mark (one, schema, serial, moment) VALUES (?1, ?2, ?3, ?4) ON CONFLICT (one) DO UPDATE SET schema = excluded.schema, serial = excluded.serial, moment = excluded.moment",
        params![1i64, row.schema, row.serial, row.moment],
    )?;
    Ok(())
}

/// Drops the mark row.
pub fn drop_mark<S: Alter>(tx: &mut Transaction<'_, S>) -> Result<(), Fault>
    requires ready { HasCleanDisk (state S.Store tx.old.conn.now) → IsReady (state S.Store tx.old.conn.now) }
    ensures same_reference { tx.new.conn.ghost_name ≡ tx.old.conn.ghost_name }
    ensures ok { HasCleanDisk (state S.Store tx.new.conn.now) → OnOk result
        (Changes (state S.Store tx.old.conn.now) (state S.Store tx.new.conn.now)
        (drop_row keys.Mark (tables_in (state S.Store tx.old.conn.now).now.trees))) }
    ensures err { HasCleanDisk (state S.Store tx.new.conn.now) → OnErr result
        (IsUnchanged (state S.Store tx.old.conn.now) (state S.Store tx.new.conn.now)
        ⊎ IsRolledBack (state S.Store tx.old.conn.now) (state S.Store tx.new.conn.now)) }
    ensures survives { Survives (state S.Store tx.old.conn.now) (state S.Store tx.new.conn.now) (λ _. ⊥) }
{
    tx.execute("DELETE FROM mark WHERE one = ?1", params![1i64])?;
    Ok(())
}

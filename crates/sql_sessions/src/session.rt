ghost use Rattle.std.specs.Prelude.{◌≡◌, ◌⊎◌, Err, IfOk, OnOk, OnErr};
ghost use Rattle.keeper_rows.specs.Applied.{put_row, drop_row};
ghost use Rattle.keeper_rows.specs.declared.change.Row.TheVariants as rows;
ghost use Rattle.keeper_rows.specs.declared.change.RowKey.TheVariants as keys;
ghost use Rattle.sqlite.specs.Held.{state};
ghost use Rattle.sqlite.specs.State.{HasCleanDisk, IsUnchanged, IsRolledBack, Survives};
ghost use Rattle.sql_base.specs.Ready.{IsReady, Changes};
ghost use Rattle.sql_base.specs.Told.{tables_in};
ghost use Rattle.sql_base.specs.Schema.{schema, schema_3, schema_4};
ghost use Rattle.sql_base.specs.Steps.{IsBegun, IsMade, IsRefused, AreListed};
ghost use Rattle.sql_sessions.specs.Values.{session_shown};
ghost use Rattle.sql_base.specs.declared.fault.Fault.TheVariants as faults;

use keeper_rows::{SessionRow, Text};
use sql_base::Fault;
use sqlite::{Alter, Row, Transaction, params};

/// Makes the table of sessions, behind those of realms, accounts and secrets.
pub fn create_sessions<S: Alter>(tx: &mut Transaction<'_, S>) -> Result<(), Fault>
    requires begun { HasCleanDisk (state S.Store tx.old.conn.now) → IsBegun schema_3 (state S.Store tx.old.conn.now) }
    ensures same_reference { tx.new.conn.ghost_name ≡ tx.old.conn.ghost_name }
    ensures ok { HasCleanDisk (state S.Store tx.new.conn.now) → OnOk result
        (IsMade schema_3 schema_4 (state S.Store tx.old.conn.now) (state S.Store tx.new.conn.now)) }
    ensures err { HasCleanDisk (state S.Store tx.new.conn.now) → OnErr result
        (IsUnchanged (state S.Store tx.old.conn.now) (state S.Store tx.new.conn.now)
        ⊎ IsRolledBack (state S.Store tx.old.conn.now) (state S.Store tx.new.conn.now)) }
    ensures survives { Survives (state S.Store tx.old.conn.now) (state S.Store tx.new.conn.now) (λ _. ⊥) }
{
    tx.execute(
        "CREATE TABLE session (id TEXT NOT NULL PRIMARY KEY, user INTEGER NOT NULL, opened INTEGER NOT NULL, seen INTEGER NOT NULL, idle INTEGER NOT NULL, max INTEGER NOT NULL, levels TEXT NOT NULL) STRICT",
        &[],
    )?;
    Ok(())
}

/// The sessions in the order of their ids, each with its rowid behind its columns.
pub fn select_sessions<S: Alter>(tx: &mut Transaction<'_, S>) -> Result<Vec<Row>, Fault>
    requires begun { HasCleanDisk (state S.Store tx.old.conn.now) → IsBegun schema (state S.Store tx.old.conn.now) }
    ensures same_reference { tx.new.conn.ghost_name ≡ tx.old.conn.ghost_name }
    ensures ok { HasCleanDisk (state S.Store tx.new.conn.now) → IfOk result (λ rows.
        AreListed session_shown ((state S.Store tx.old.conn.now).now.trees 5) rows.items) }
    ensures same { HasCleanDisk (state S.Store tx.new.conn.now) → OnOk result
        (IsUnchanged (state S.Store tx.old.conn.now) (state S.Store tx.new.conn.now)) }
    ensures cause { HasCleanDisk (state S.Store tx.new.conn.now) → result ≡ Err faults.Failed
        → IsRefused (state S.Store tx.old.conn.now) (state S.Store tx.new.conn.now) }
    ensures survives { Survives (state S.Store tx.old.conn.now) (state S.Store tx.new.conn.now) (λ _. ⊥) }
{
    Ok(tx.query_all(
        "SELECT id, user, opened, seen, idle, max, levels, rowid FROM session ORDER BY id",
        &[],
    )?)
}

/// Puts a session by its id.
pub fn put_session<S: Alter>(tx: &mut Transaction<'_, S>, row: &SessionRow) -> Result<(), Fault>
    requires ready { HasCleanDisk (state S.Store tx.old.conn.now) → IsReady (state S.Store tx.old.conn.now) }
    ensures same_reference { tx.new.conn.ghost_name ≡ tx.old.conn.ghost_name }
    ensures ok { HasCleanDisk (state S.Store tx.new.conn.now) → OnOk result
        (Changes (state S.Store tx.old.conn.now) (state S.Store tx.new.conn.now)
        (put_row (rows.Session row.now) (tables_in (state S.Store tx.old.conn.now).now.trees))) }
    ensures err { HasCleanDisk (state S.Store tx.new.conn.now) → OnErr result
        (IsUnchanged (state S.Store tx.old.conn.now) (state S.Store tx.new.conn.now)
        ⊎ IsRolledBack (state S.Store tx.old.conn.now) (state S.Store tx.new.conn.now)) }
    ensures survives { Survives (state S.Store tx.old.conn.now) (state S.Store tx.new.conn.now) (λ _. ⊥) }
{
    tx.execute(
        "INSERT INTO session (id, user, opened, seen, idle, max, levels) VALUES (?1, ?2, ?3, ?4, ?5, ?6, ?7) ON CONFLICT (id) DO UPDATE SET user = excluded.user, opened = excluded.opened, seen = excluded.seen, idle = excluded.idle, max = excluded.max, levels = excluded.levels",
        params![
            row.id.as_str(),
            row.user,
            row.opened,
            row.seen,
            row.idle,
            row.max,
            row.levels.as_str()
        ],
    )?;
    Ok(())
}

/// Drops the session of an id.
pub fn drop_session<S: Alter>(tx: &mut Transaction<'_, S>, id: &Text) -> Result<(), Fault>
    requires ready { HasCleanDisk (state S.Store tx.old.conn.now) → IsReady (state S.Store tx.old.conn.now) }
    ensures same_reference { tx.new.conn.ghost_name ≡ tx.old.conn.ghost_name }
    ensures ok { HasCleanDisk (state S.Store tx.new.conn.now) → OnOk result
        (Changes (state S.Store tx.old.conn.now) (state S.Store tx.new.conn.now)
        (drop_row (keys.Session id.now) (tables_in (state S.Store tx.old.conn.now).now.trees))) }
    ensures err { HasCleanDisk (state S.Store tx.new.conn.now) → OnErr result
        (IsUnchanged (state S.Store tx.old.conn.now) (state S.Store tx.new.conn.now)
        ⊎ IsRolledBack (state S.Store tx.old.conn.now) (state S.Store tx.new.conn.now)) }
    ensures survives { Survives (state S.Store tx.old.conn.now) (state S.Store tx.new.conn.now) (λ _. ⊥) }
{
    tx.execute("DELETE FROM session WHERE id = ?1", params![id.as_str()])?;
    Ok(())
}

ghost use Rattle.std.specs.Prelude.{◌≡◌, ◌⊎◌, Err, IfOk, OnOk, OnErr};
ghost use Rattle.keeper_rows.specs.Applied.{put_row, drop_row};
ghost use Rattle.keeper_rows.specs.declared.change.Row.TheVariants as rows;
ghost use Rattle.keeper_rows.specs.declared.change.RowKey.TheVariants as keys;
ghost use Rattle.sqlite.specs.Held.{state};
ghost use Rattle.sqlite.specs.State.{HasCleanDisk, IsUnchanged, IsRolledBack, Survives};
ghost use Rattle.sql_base.specs.Schema.{schema_2, schema_3, schema};
ghost use Rattle.sql_base.specs.Steps.{IsBegun, IsMade, IsRefused, AreListed};
ghost use Rattle.sql_base.specs.Ready.{IsReady, Changes};
ghost use Rattle.sql_base.specs.Told.{tables_in};
ghost use Rattle.sql_accounts.specs.Shown.{secret_shown};
ghost use Rattle.sql_base.specs.declared.fault.Fault.TheVariants as faults;

use keeper_rows::SecretRow;
use sql_base::Fault;
use sqlite::{Alter, Row, Transaction, params};

/// Makes the table of secrets, behind those of realms and accounts.
pub fn create_secrets<S: Alter>(tx: &mut Transaction<'_, S>) -> Result<(), Fault>
    requires begun { HasCleanDisk (state S.Store tx.old.conn.now) → IsBegun schema_2 (state S.Store tx.old.conn.now) }
    ensures same_reference { tx.new.conn.ghost_name ≡ tx.old.conn.ghost_name }
    ensures ok { HasCleanDisk (state S.Store tx.new.conn.now) → OnOk result
        (IsMade schema_2 schema_3 (state S.Store tx.old.conn.now) (state S.Store tx.new.conn.now)) }
    ensures err { HasCleanDisk (state S.Store tx.new.conn.now) → OnErr result
        (IsUnchanged (state S.Store tx.old.conn.now) (state S.Store tx.new.conn.now)
        ⊎ IsRolledBack (state S.Store tx.old.conn.now) (state S.Store tx.new.conn.now)) }
    ensures survives { Survives (state S.Store tx.old.conn.now) (state S.Store tx.new.conn.now) (λ _. ⊥) }
{
    tx.execute(
        "CREATE TABLE secret (serial INTEGER PRIMARY KEY, user INTEGER NOT NULL, kind TEXT NOT NULL, body BLOB NOT NULL, spent TEXT NOT NULL, UNIQUE (user, kind)) STRICT",
        &[],
    )?;
    Ok(())
}

/// The secrets in the order of their keys.
pub fn select_secrets<S: Alter>(tx: &mut Transaction<'_, S>) -> Result<Vec<Row>, Fault>
    requires begun { HasCleanDisk (state S.Store tx.old.conn.now) → IsBegun schema (state S.Store tx.old.conn.now) }
    ensures same_reference { tx.new.conn.ghost_name ≡ tx.old.conn.ghost_name }
    ensures ok { HasCleanDisk (state S.Store tx.new.conn.now) → IfOk result (λ rows.
        AreListed secret_shown ((state S.Store tx.old.conn.now).now.trees 3) rows.items) }
    ensures same { HasCleanDisk (state S.Store tx.new.conn.now) → OnOk result
        (IsUnchanged (state S.Store tx.old.conn.now) (state S.Store tx.new.conn.now)) }
    ensures cause { HasCleanDisk (state S.Store tx.new.conn.now) → result ≡ Err faults.Failed
        → IsRefused (state S.Store tx.old.conn.now) (state S.Store tx.new.conn.now) }
    ensures survives { Survives (state S.Store tx.old.conn.now) (state S.Store tx.new.conn.now) (λ _. ⊥) }
{
    Ok(tx.query_all(
        "SELECT serial, user, kind, body, spent FROM secret ORDER BY serial",
        &[],
    )?)
}

/// Puts a secret by its serial. It never takes the place of another secret of its user and kind:
/// that is refused.
pub fn put_secret<S: Alter>(tx: &mut Transaction<'_, S>, row: &SecretRow) -> Result<(), Fault>
    requires ready { HasCleanDisk (state S.Store tx.old.conn.now) → IsReady (state S.Store tx.old.conn.now) }
    ensures same_reference { tx.new.conn.ghost_name ≡ tx.old.conn.ghost_name }
    ensures ok { HasCleanDisk (state S.Store tx.new.conn.now) → OnOk result
        (Changes (state S.Store tx.old.conn.now) (state S.Store tx.new.conn.now)
        (put_row (rows.Secret row.now) (tables_in (state S.Store tx.old.conn.now).now.trees))) }
    ensures err { HasCleanDisk (state S.Store tx.new.conn.now) → OnErr result
        (IsUnchanged (state S.Store tx.old.conn.now) (state S.Store tx.new.conn.now)
        ⊎ IsRolledBack (state S.Store tx.old.conn.now) (state S.Store tx.new.conn.now)) }
    ensures survives { Survives (state S.Store tx.old.conn.now) (state S.Store tx.new.conn.now) (λ _. ⊥) }
{
    tx.execute(
        "INSERT INTO secret (serial, user, kind, body, spent) VALUES (?1, ?2, ?3, ?4, ?5) ON CONFLICT (serial) DO UPDATE SET user = excluded.user, kind = excluded.kind, body = excluded.body, spent = excluded.spent",
        params![
            row.serial,
            row.user,
            row.kind.as_str(),
            row.body.as_slice(),
            row.spent.as_str()
        ],
    )?;
    Ok(())
}

/// Drops the secret of a serial.
pub fn drop_secret<S: Alter>(tx: &mut Transaction<'_, S>, serial: i64) -> Result<(), Fault>
    requires ready { HasCleanDisk (state S.Store tx.old.conn.now) → IsReady (state S.Store tx.old.conn.now) }
    ensures same_reference { tx.new.conn.ghost_name ≡ tx.old.conn.ghost_name }
    ensures ok { HasCleanDisk (state S.Store tx.new.conn.now) → OnOk result
        (Changes (state S.Store tx.old.conn.now) (state S.Store tx.new.conn.now)
        (drop_row (keys.Secret serial) (tables_in (state S.Store tx.old.conn.now).now.trees))) }
    ensures err { HasCleanDisk (state S.Store tx.new.conn.now) → OnErr result
        (IsUnchanged (state S.Store tx.old.conn.now) (state S.Store tx.new.conn.now)
        ⊎ IsRolledBack (state S.Store tx.old.conn.now) (state S.Store tx.new.conn.now)) }
    ensures survives { Survives (state S.Store tx.old.conn.now) (state S.Store tx.new.conn.now) (λ _. ⊥) }
{
    tx.execute("DELETE FROM secret WHERE serial = ?1", params![serial])?;
    Ok(())
}

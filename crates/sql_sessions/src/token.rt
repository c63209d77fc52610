ghost use Rattle.std.specs.Prelude.{◌≡◌, ◌⊎◌, Err, IfOk, OnOk, OnErr};
ghost use Rattle.keeper_rows.specs.Applied.{put_row, drop_row};
ghost use Rattle.keeper_rows.specs.declared.change.Row.TheVariants as rows;
ghost use Rattle.keeper_rows.specs.declared.change.RowKey.TheVariants as keys;
ghost use Rattle.sqlite.specs.Held.{state};
ghost use Rattle.sqlite.specs.State.{HasCleanDisk, IsUnchanged, IsRolledBack, Survives};
ghost use Rattle.sql_base.specs.Ready.{IsReady, Changes};
ghost use Rattle.sql_base.specs.Told.{tables_in};
ghost use Rattle.sql_base.specs.Schema.{schema, schema_4, schema_5};
ghost use Rattle.sql_base.specs.Steps.{IsBegun, IsMade, IsRefused, AreListed};
ghost use Rattle.sql_sessions.specs.Values.{token_shown};
ghost use Rattle.sql_base.specs.declared.fault.Fault.TheVariants as faults;

use keeper_rows::{Text, TokenRow};
use sql_base::Fault;
use sqlite::{Alter, Row, Transaction, params};

/// Makes the table of tokens, behind that of sessions.
pub fn create_tokens<S: Alter>(tx: &mut Transaction<'_, S>) -> Result<(), Fault>
    requires begun { HasCleanDisk (state S.Store tx.old.conn.now) → IsBegun schema_4 (state S.Store tx.old.conn.now) }
    ensures same_reference { tx.new.conn.ghost_name ≡ tx.old.conn.ghost_name }
    ensures ok { HasCleanDisk (state S.Store tx.new.conn.now) → OnOk result
        (IsMade schema_4 schema_5 (state S.Store tx.old.conn.now) (state S.Store tx.new.conn.now)) }
    ensures err { HasCleanDisk (state S.Store tx.new.conn.now) → OnErr result
        (IsUnchanged (state S.Store tx.old.conn.now) (state S.Store tx.new.conn.now)
        ⊎ IsRolledBack (state S.Store tx.old.conn.now) (state S.Store tx.new.conn.now)) }
    ensures survives { Survives (state S.Store tx.old.conn.now) (state S.Store tx.new.conn.now) (λ _. ⊥) }
{
    tx.execute(
        "CREATE TABLE token (key TEXT NOT NULL PRIMARY KEY, user INTEGER NOT NULL, kind TEXT NOT NULL, expiry INTEGER NOT NULL, spent INTEGER NOT NULL) STRICT",
        &[],
    )?;
    Ok(())
}

/// The tokens in the order of their keys, each with its rowid behind its columns.
pub fn select_tokens<S: Alter>(tx: &mut Transaction<'_, S>) -> Result<Vec<Row>, Fault>
    requires begun { HasCleanDisk (state S.Store tx.old.conn.now) → IsBegun schema (state S.Store tx.old.conn.now) }
    ensures same_reference { tx.new.conn.ghost_name ≡ tx.old.conn.ghost_name }
    ensures ok { HasCleanDisk (state S.Store tx.new.conn.now) → IfOk result (λ rows.
        AreListed token_shown ((state S.Store tx.old.conn.now).now.trees 7) rows.items) }
    ensures same { HasCleanDisk (state S.Store tx.new.conn.now) → OnOk result
        (IsUnchanged (state S.Store tx.old.conn.now) (state S.Store tx.new.conn.now)) }
    ensures cause { HasCleanDisk (state S.Store tx.new.conn.now) → result ≡ Err faults.Failed
        → IsRefused (state S.Store tx.old.conn.now) (state S.Store tx.new.conn.now) }
    ensures survives { Survives (state S.Store tx.old.conn.now) (state S.Store tx.new.conn.now) (λ _. ⊥) }
{
    Ok(tx.query_all(
        "SELECT key, user, kind, expiry, spent, rowid FROM token ORDER BY key",
        &[],
    )?)
}

/// Puts a token by its key.
pub fn put_token<S: Alter>(tx: &mut Transaction<'_, S>, row: &TokenRow) -> Result<(), Fault>
    requires ready { HasCleanDisk (state S.Store tx.old.conn.now) → IsReady (state S.Store tx.old.conn.now) }
    ensures same_reference { tx.new.conn.ghost_name ≡ tx.old.conn.ghost_name }
    ensures ok { HasCleanDisk (state S.Store tx.new.conn.now) → OnOk result
        (Changes (state S.Store tx.old.conn.now) (state S.Store tx.new.conn.now)
        (put_row (rows.Token row.now) (tables_in (state S.Store tx.old.conn.now).now.trees))) }
    ensures err { HasCleanDisk (state S.Store tx.new.conn.now) → OnErr result
        (IsUnchanged (state S.Store tx.old.conn.now) (state S.Store tx.new.conn.now)
        ⊎ IsRolledBack (state S.Store tx.old.conn.now) (state S.Store tx.new.conn.now)) }
    ensures survives { Survives (state S.Store tx.old.conn.now) (state S.Store tx.new.conn.now) (λ _. ⊥) }
{
    tx.execute(
        "INSERT INTO token (key, user, kind, expiry, spent) VALUES (?1, ?2, ?3, ?4, ?5) ON CONFLICT (key) DO UPDATE SET user = excluded.user, kind = excluded.kind, expiry = excluded.expiry, spent = excluded.spent",
        params![
            row.key.as_str(),
            row.user,
            row.kind.as_str(),
            row.expiry,
            row.spent
        ],
    )?;
    Ok(())
}

/// Drops the token of a key.
pub fn drop_token<S: Alter>(tx: &mut Transaction<'_, S>, key: &Text) -> Result<(), Fault>
    requires ready { HasCleanDisk (state S.Store tx.old.conn.now) → IsReady (state S.Store tx.old.conn.now) }
    ensures same_reference { tx.new.conn.ghost_name ≡ tx.old.conn.ghost_name }
    ensures ok { HasCleanDisk (state S.Store tx.new.conn.now) → OnOk result
        (Changes (state S.Store tx.old.conn.now) (state S.Store tx.new.conn.now)
        (drop_row (keys.Token key.now) (tables_in (state S.Store tx.old.conn.now).now.trees))) }
    ensures err { HasCleanDisk (state S.Store tx.new.conn.now) → OnErr result
        (IsUnchanged (state S.Store tx.old.conn.now) (state S.Store tx.new.conn.now)
        ⊎ IsRolledBack (state S.Store tx.old.conn.now) (state S.Store tx.new.conn.now)) }
    ensures survives { Survives (state S.Store tx.old.conn.now) (state S.Store tx.new.conn.now) (λ _. ⊥) }
{
    tx.execute("DELETE FROM token WHERE key = ?1", params![key.as_str()])?;
    Ok(())
}

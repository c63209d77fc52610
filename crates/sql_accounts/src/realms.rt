ghost use Rattle.std.specs.Prelude.{◌≡◌, ◌⊎◌, Err, IfOk, OnOk, OnErr};
ghost use Rattle.keeper_rows.specs.Applied.{put_row, drop_row};
ghost use Rattle.keeper_rows.specs.declared.change.Row.TheVariants as rows;
ghost use Rattle.keeper_rows.specs.declared.change.RowKey.TheVariants as keys;
ghost use Rattle.sqlite.specs.Held.{state};
ghost use Rattle.sqlite.specs.State.{HasCleanDisk, IsUnchanged, IsRolledBack, Survives};
ghost use Rattle.sql_base.specs.Schema.{no_schema, schema_1, schema};
ghost use Rattle.sql_base.specs.Steps.{IsBegun, IsMade, IsRefused, AreListed};
ghost use Rattle.sql_base.specs.Ready.{IsReady, Changes};
ghost use Rattle.sql_base.specs.Told.{tables_in};
ghost use Rattle.sql_accounts.specs.Shown.{realm_shown};
ghost use Rattle.std.specs.Prelude.{ℕ, pos, Ok};
ghost use Rattle.realm_data.specs.declared.realm_parts.RealmParts.{RealmParts};
ghost use Rattle.realm_file.specs.RealmFile.{realm_read};
ghost use Rattle.sql_base.specs.declared.fault.Fault.TheVariants as faults;

use sql_base::Fault;
use sqlite::{Alter, Row, Transaction, params};

/// Makes the table of realms, in an empty database.
pub fn create_realms<S: Alter>(tx: &mut Transaction<'_, S>) -> Result<(), Fault>
    requires begun { HasCleanDisk (state S.Store tx.old.conn.now) → IsBegun no_schema (state S.Store tx.old.conn.now) }
    ensures same_reference { tx.new.conn.ghost_name ≡ tx.old.conn.ghost_name }
    ensures ok { HasCleanDisk (state S.Store tx.new.conn.now) → OnOk result
        (IsMade no_schema schema_1 (state S.Store tx.old.conn.now) (state S.Store tx.new.conn.now)) }
    ensures err { HasCleanDisk (state S.Store tx.new.conn.now) → OnErr result
        (IsUnchanged (state S.Store tx.old.conn.now) (state S.Store tx.new.conn.now)
        ⊎ IsRolledBack (state S.Store tx.old.conn.now) (state S.Store tx.new.conn.now)) }
    ensures survives { Survives (state S.Store tx.old.conn.now) (state S.Store tx.new.conn.now) (λ _. ⊥) }
{
    tx.execute(
        "CREATE TABLE realm (version INTEGER PRIMARY KEY, text TEXT NOT NULL) STRICT",
        &[],
    )?;
    Ok(())
}

/// The realms in the order of their keys.
pub fn select_realms<S: Alter>(tx: &mut Transaction<'_, S>) -> Result<Vec<Row>, Fault>
    requires begun { HasCleanDisk (state S.Store tx.old.conn.now) → IsBegun schema (state S.Store tx.old.conn.now) }
    ensures same_reference { tx.new.conn.ghost_name ≡ tx.old.conn.ghost_name }
    ensures ok { HasCleanDisk (state S.Store tx.new.conn.now) → IfOk result (λ rows.
        AreListed realm_shown ((state S.Store tx.old.conn.now).now.trees 0) rows.items) }
    ensures same { HasCleanDisk (state S.Store tx.new.conn.now) → OnOk result
        (IsUnchanged (state S.Store tx.old.conn.now) (state S.Store tx.new.conn.now)) }
    ensures cause { HasCleanDisk (state S.Store tx.new.conn.now) → result ≡ Err faults.Failed
        → IsRefused (state S.Store tx.old.conn.now) (state S.Store tx.new.conn.now) }
    ensures survives { Survives (state S.Store tx.old.conn.now) (state S.Store tx.new.conn.now) (λ _. ⊥) }
{
    Ok(tx.query_all("SELECT version, text FROM realm ORDER BY version", &[])?)
}

/// Puts a realm by its version, as a text that reads as it.
pub fn put_realm<S: Alter>(
    tx: &mut Transaction<'_, S>,
    version: i64,
    text: &str,
) -> Result<(), Fault>
    requires ready { HasCleanDisk (state S.Store tx.old.conn.now) → IsReady (state S.Store tx.old.conn.now) }
    ensures same_reference { tx.new.conn.ghost_name ≡ tx.old.conn.ghost_name }
    ensures ok { (number : ℕ) → version ≡ pos number → (realm : RealmParts) → realm_read text.now ≡ Ok realm
        → HasCleanDisk (state S.Store tx.new.conn.now) → OnOk result
        (Changes (state S.Store tx.old.conn.now) (state S.Store tx.new.conn.now)
        (put_row (rows.Realm number realm) (tables_in (state S.Store tx.old.conn.now).now.trees))) }
    ensures err { HasCleanDisk (state S.Store tx.new.conn.now) → OnErr result
        (IsUnchanged (state S.Store tx.old.conn.now) (state S.Store tx.new.conn.now)
        ⊎ IsRolledBack (state S.Store tx.old.conn.now) (state S.Store tx.new.conn.now)) }
    ensures survives { Survives (state S.Store tx.old.conn.now) (state S.Store tx.new.conn.now) (λ _. ⊥) }
{
    tx.execute(
        "INSERT INTO realm (version, text) VALUES (?1, ?2) ON CONFLICT (version) DO UPDATE SET text = excluded.text",
        params![version, text],
    )?;
    Ok(())
}

/// Drops the realm of a version.
pub fn drop_realm<S: Alter>(tx: &mut Transaction<'_, S>, version: i64) -> Result<(), Fault>
    requires ready { HasCleanDisk (state S.Store tx.old.conn.now) → IsReady (state S.Store tx.old.conn.now) }
    ensures same_reference { tx.new.conn.ghost_name ≡ tx.old.conn.ghost_name }
    ensures ok { (number : ℕ) → version ≡ pos number → HasCleanDisk (state S.Store tx.new.conn.now) → OnOk result
        (Changes (state S.Store tx.old.conn.now) (state S.Store tx.new.conn.now)
        (drop_row (keys.Realm number) (tables_in (state S.Store tx.old.conn.now).now.trees))) }
    ensures err { HasCleanDisk (state S.Store tx.new.conn.now) → OnErr result
        (IsUnchanged (state S.Store tx.old.conn.now) (state S.Store tx.new.conn.now)
        ⊎ IsRolledBack (state S.Store tx.old.conn.now) (state S.Store tx.new.conn.now)) }
    ensures survives { Survives (state S.Store tx.old.conn.now) (state S.Store tx.new.conn.now) (λ _. ⊥) }
{
    tx.execute("DELETE FROM realm WHERE version = ?1", params![version])?;
    Ok(())
}

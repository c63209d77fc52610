ghost use Rattle.std.specs.Prelude.{◌≡◌, [], ◌∷◌, IsTrue, OnOk, OnErr};
ghost use Rattle.keeper_rows.specs.Applied.{no_rows};
ghost use Rattle.std.specs.List.{AllByRecursion};
ghost use Rattle.sqlite.specs.Held.{state};
ghost use Rattle.sqlite.specs.State.{HasCleanDisk, KeepsCommit, Survives};
ghost use Rattle.sql_base.specs.Schema.{no_schema, schema_3, schema};
ghost use Rattle.sql_base.specs.Spares.{row_trees};
ghost use Rattle.sql_base.specs.Steps.{IsBegun};
ghost use Rattle.sql_base.specs.Told.{tables_in};
ghost use Rattle.keeper_sql.specs.Committed.{IsKept};
ghost use Rattle.keeper_sql.specs.Made.{AreMade, IsFresh};

use crate::commit::test_open;
use sql_accounts::{create_accounts, create_marks, create_realms, create_secrets};
use sql_base::Fault;
use sql_sessions::{create_sessions, create_tokens};
use sqlite::{Alter, Connection, Transaction};

/// Makes the tables of realms, accounts and secrets.
fn make_first<S: Alter>(tx: &mut Transaction<'_, S>) -> Result<(), Fault>
    requires begun { HasCleanDisk (state S.Store tx.old.conn.now) → IsBegun no_schema (state S.Store tx.old.conn.now) }
    requires opened { HasCleanDisk (state S.Store tx.old.conn.now) → IsTrue (state S.Store tx.old.conn.now).is_open }
    ensures same_reference { tx.new.conn.ghost_name ≡ tx.old.conn.ghost_name }
    ensures ok { HasCleanDisk (state S.Store tx.new.conn.now) → OnOk result
        (AreMade schema_3 (0 ∷ 1 ∷ 3 ∷ []) (state S.Store tx.old.conn.now) (state S.Store tx.new.conn.now)) }
    ensures err { HasCleanDisk (state S.Store tx.new.conn.now) → OnErr result
        (KeepsCommit (state S.Store tx.old.conn.now) (state S.Store tx.new.conn.now)) }
    ensures survives { Survives (state S.Store tx.old.conn.now) (state S.Store tx.new.conn.now) (λ _. ⊥) }
{
    create_realms(tx)?;
    create_accounts(tx)?;
    create_secrets(tx)
}

/// Makes the tables of sessions, tokens and marks, behind the others.
fn make_rest<S: Alter>(tx: &mut Transaction<'_, S>) -> Result<(), Fault>
    requires begun { HasCleanDisk (state S.Store tx.old.conn.now) → IsBegun schema_3 (state S.Store tx.old.conn.now) }
    requires opened { HasCleanDisk (state S.Store tx.old.conn.now) → IsTrue (state S.Store tx.old.conn.now).is_open }
    requires empty { HasCleanDisk (state S.Store tx.old.conn.now)
        → AllByRecursion (λ t. (state S.Store tx.old.conn.now).now.trees t ≡ []) (0 ∷ 1 ∷ 3 ∷ []) }
    ensures same_reference { tx.new.conn.ghost_name ≡ tx.old.conn.ghost_name }
    ensures ok { HasCleanDisk (state S.Store tx.new.conn.now) → OnOk result
        (AreMade schema row_trees (state S.Store tx.old.conn.now) (state S.Store tx.new.conn.now)) }
    ensures err { HasCleanDisk (state S.Store tx.new.conn.now) → OnErr result
        (KeepsCommit (state S.Store tx.old.conn.now) (state S.Store tx.new.conn.now)) }
    ensures survives { Survives (state S.Store tx.old.conn.now) (state S.Store tx.new.conn.now) (λ _. ⊥) }
{
    create_sessions(tx)?;
    create_tokens(tx)?;
    create_marks(tx)
}

/// Makes our tables in an empty database, all in one transaction, or none.
pub(crate) fn make_schema<S: Alter>(conn: &mut Connection<S>) -> Result<(), Fault>
    requires empty { (state S.Store conn.old).now.schema ≡ no_schema }
    ensures made { HasCleanDisk (state S.Store conn.new) → OnOk result (IsFresh (state S.Store conn.new)) }
    ensures none { HasCleanDisk (state S.Store conn.new) → OnErr result
        (IsKept (state S.Store conn.old) (state S.Store conn.new)) }
    ensures survives { Survives (state S.Store conn.old) (state S.Store conn.new)
        (λ trees. tables_in trees ≡ no_rows) }
{
    if !conn.is_autocommit() {
        return Err(Fault::Failed);
    }
    let mut tx = conn.transaction();
    test_open(&mut tx)?;
    make_first(&mut tx)?;
    make_rest(&mut tx)?;
    tx.commit()?;
    Ok(())
}

ghost use Rattle.std.specs.Prelude.{◌≡◌, IsTrue, OnOk, OnErr};
ghost use Rattle.keeper_rows.specs.Applied.{applied};
ghost use Rattle.sqlite.specs.Held.{state};
ghost use Rattle.sqlite.specs.State.{HasCleanDisk, IsUnchanged, KeepsCommit, Survives};
ghost use Rattle.sql_base.specs.Ready.{IsReady, Changes};
ghost use Rattle.sql_base.specs.Told.{tables_in};
ghost use Rattle.keeper_sql.specs.Committed.{IsOurs, IsRefused, IsCommitted, IsKept};

use crate::changes::make;
use keeper_rows::Change;
use sql_base::Fault;
use sqlite::{Alter, Connection, Transaction};
use std::alloc::Global;

/// Whether the connection is open: a text is compiled there, and isn't run.
pub(crate) fn test_open<S: Alter>(tx: &mut Transaction<'_, S>) -> Result<(), Fault>
    ensures same_reference { tx.new.conn.ghost_name ≡ tx.old.conn.ghost_name }
    ensures ok { HasCleanDisk (state S.Store tx.new.conn.now) → OnOk result
        (IsUnchanged (state S.Store tx.old.conn.now) (state S.Store tx.new.conn.now)) }
    ensures err { HasCleanDisk (state S.Store tx.new.conn.now) → OnErr result
        (IsRefused (state S.Store tx.old.conn.now) (state S.Store tx.new.conn.now)) }
    ensures survives { Survives (state S.Store tx.old.conn.now) (state S.Store tx.new.conn.now) (λ _. ⊥) }
{
    let _statement = tx.prepare("SELECT name FROM sqlite_schema")?;
    Ok(())
}

/// Makes changes inside a transaction, in order, up to the first that is refused.
fn make_all<S: Alter>(
    alloc: Global,
    tx: &mut Transaction<'_, S>,
    changes: &[Change],
) -> Result<(), Fault>
    requires ready { HasCleanDisk (state S.Store tx.old.conn.now) → IsReady (state S.Store tx.old.conn.now) }
    requires opened { HasCleanDisk (state S.Store tx.old.conn.now) → IsTrue (state S.Store tx.old.conn.now).is_open }
    ensures same_reference { tx.new.conn.ghost_name ≡ tx.old.conn.ghost_name }
    ensures ok { HasCleanDisk (state S.Store tx.new.conn.now) → OnOk result
        (Changes (state S.Store tx.old.conn.now) (state S.Store tx.new.conn.now)
        (applied changes.now (tables_in (state S.Store tx.old.conn.now).now.trees))) }
    ensures err { HasCleanDisk (state S.Store tx.new.conn.now) → OnErr result
        (KeepsCommit (state S.Store tx.old.conn.now) (state S.Store tx.new.conn.now)) }
    ensures survives { Survives (state S.Store tx.old.conn.now) (state S.Store tx.new.conn.now) (λ _. ⊥) }
{
    for change in changes {
        make(alloc, tx, change)?;
    }
    Ok(())
}

/// Makes all changes in one transaction, or none.
pub(crate) fn commit_all<S: Alter>(
    alloc: Global,
    conn: &mut Connection<S>,
    changes: &[Change],
) -> Result<(), Fault>
    requires ours { HasCleanDisk (state S.Store conn.old) → IsTrue (state S.Store conn.old).is_open
        → IsOurs (state S.Store conn.old).now }
    ensures done { HasCleanDisk (state S.Store conn.new) → OnOk result
        (IsCommitted changes.now (state S.Store conn.old) (state S.Store conn.new)) }
    ensures none { HasCleanDisk (state S.Store conn.new) → OnErr result
        (IsKept (state S.Store conn.old) (state S.Store conn.new)) }
    ensures survives { Survives (state S.Store conn.old) (state S.Store conn.new)
        (λ trees. tables_in trees ≡ applied changes.now (tables_in (state S.Store conn.old).now.trees)) }
{
    if !conn.is_autocommit() {
        return Err(Fault::Failed);
    }
    let mut tx = conn.transaction();
    test_open(&mut tx)?;
    make_all(alloc, &mut tx, changes)?;
    tx.commit()?;
    Ok(())
}

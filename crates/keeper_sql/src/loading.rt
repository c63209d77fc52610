ghost use Rattle.std.specs.Prelude.{◌≡◌, IfOk, IsTrue, OnOk, false};
ghost use Rattle.keeper_core.specs.Keeping.{IsAnswer, KeepsRules, is_failed_load};
ghost use Rattle.sqlite.specs.Held.{state};
ghost use Rattle.sqlite.specs.State.{HasCleanDisk, Survives};
ghost use Rattle.sql_base.specs.Told.{tables_in};
ghost use Rattle.keeper_sql.specs.Committed.{HasOurTables, IsOurs, IsKept};
ghost use Rattle.keeper_sql.specs.Unread.{is_whole, untold_as, unkeyed_as, IsAnswerOf};

use crate::commit::test_open;
use keeper_core::{LoadFault, checked};
use keeper_rows::Tables;
use sql_base::Fault;
use sql_loads::{Loaded, load_tables};
use sqlite::{Alter, Connection};
use std::alloc::Global;

/// Reads our tables in one transaction, which is undone.
pub(crate) fn read_tables<S: Alter>(
    alloc: Global,
    conn: &mut Connection<S>,
) -> Result<Loaded, Fault>
    requires ours { HasCleanDisk (state S.Store conn.old) → IsTrue (state S.Store conn.old).is_open
        → HasOurTables (state S.Store conn.old).now }
    ensures kept { HasCleanDisk (state S.Store conn.new) → OnOk result
        (IsKept (state S.Store conn.old) (state S.Store conn.new)) }
    ensures ours { HasCleanDisk (state S.Store conn.new) → IfOk result (λ loaded.
        IsTrue (is_whole loaded.untold_realm loaded.unkeyed_mark) → IsOurs (state S.Store conn.old).now) }
    ensures told { HasCleanDisk (state S.Store conn.new) → IfOk result (λ loaded.
        IsTrue (is_whole loaded.untold_realm loaded.unkeyed_mark)
        → loaded.tables ≡ tables_in (state S.Store conn.old).now.trees) }
    ensures survives { Survives (state S.Store conn.old) (state S.Store conn.new) (λ _. ⊥) }
{
    if !conn.is_autocommit() {
        return Err(Fault::Failed);
    }
    let mut tx = conn.transaction();
    test_open(&mut tx)?;
    load_tables(alloc, &mut tx)
}

/// Whether every row was told.
pub(crate) fn is_whole(loaded: &Loaded) -> bool
    ensures value { result ≡ is_whole loaded.now.untold_realm loaded.now.unkeyed_mark }
{
    loaded.untold_realm.is_none() && loaded.unkeyed_mark.is_none()
}

/// What a load answers where a realm row tells no realm, which breaks the second rule. `others` is
/// what is answered of the other rules.
fn without_realm(row: u64, others: Result<Tables, LoadFault>) -> LoadFault
    ensures value { result ≡ untold_as row others }
{
    match others {
        Err(LoadFault::Foreign { version }) => LoadFault::Foreign { version },
        Err(LoadFault::Memory) => LoadFault::Memory,
        Err(LoadFault::Misfit { rule, row: first }) if rule < 2 || rule == 2 && first < row => {
            LoadFault::Misfit { rule, row: first }
        }
        _ => LoadFault::Misfit { rule: 2, row },
    }
}

/// What a load answers where a mark row has another key than 1, which breaks the last rule, and is
/// the last row to be asked it.
fn without_mark(row: u64, others: Result<Tables, LoadFault>) -> LoadFault
    ensures value { result ≡ unkeyed_as row others }
{
    match others {
        Err(fault) => fault,
        Ok(_) => LoadFault::Misfit { rule: 7, row },
    }
}

/// What a load answers that read this.
pub(crate) fn answer(alloc: Global, loaded: Loaded) -> Result<Tables, LoadFault>
    ensures told { IsTrue (is_whole loaded.untold_realm loaded.unkeyed_mark) → IsAnswer loaded.tables result }
    ensures value { IsAnswerOf loaded.untold_realm loaded.unkeyed_mark loaded.tables result }
    ensures sound { IfOk result KeepsRules }
    ensures held { is_failed_load result ≡ false }
{
    let Loaded {
        tables,
        untold_realm,
        unkeyed_mark,
    } = loaded;
    let others = checked(alloc, tables);
    match (untold_realm, unkeyed_mark) {
        (Some(row), _) => Err(without_realm(row, others)),
        (None, Some(row)) => Err(without_mark(row, others)),
        (None, None) => others,
    }
}

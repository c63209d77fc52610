use crate::{CommitFault, Keeper, LoadFault, MemKeeper};
use keeper_rows::{AccountRow, Batch, Change, MarkRow, Row, RowKey, SessionRow, Tables, Text};
use login_base::{Memory, Sequence};
use std::alloc::Global;
use std::test::Fail;

fn account(alloc: Global, id: i64, name: &str) -> Result<AccountRow, Memory> {
    Ok(AccountRow {
        id,
        name: Text::new(alloc, name)?,
        roles: Text::new(alloc, "")?,
        enabled: 1,
        count: 0,
        last: -1,
        until: 0,
        permanent: 0,
        actions: Text::new(alloc, "")?,
    })
}

fn session(alloc: Global, id: &str) -> Result<SessionRow, Memory> {
    Ok(SessionRow {
        id: Text::new(alloc, id)?,
        user: 1,
        opened: 0,
        seen: 0,
        idle: 1,
        max: 1,
        levels: Text::new(alloc, "")?,
    })
}

fn mark(schema: i64, serial: i64) -> MarkRow {
    MarkRow {
        schema,
        serial,
        moment: 3_000,
    }
}

fn put(alloc: Global, row: Row) -> Result<Batch, Memory> {
    let mut changes = Sequence::new(alloc);
    changes.push(Change::Put(row))?;
    Ok(Batch { changes })
}

fn dropping(alloc: Global, key: RowKey) -> Result<Batch, Memory> {
    let mut changes = Sequence::new(alloc);
    changes.push(Change::Drop(key))?;
    Ok(Batch { changes })
}

/// A keeper of a mark row alone.
fn keeper(alloc: Global, schema: i64, failing: &[u64]) -> Result<MemKeeper, Memory> {
    let mut tables = Tables::empty(alloc);
    tables.marks.push(mark(schema, 9))?;
    let failing = Vec::from_slice(alloc, failing)?;
    Ok(MemKeeper::make(alloc, tables, failing))
}

/// The ids of the accounts that the keeper has, each as one digit, joined to a number; 0 where it
/// loads nothing.
fn ids(keeper: &mut MemKeeper) -> i64 {
    match keeper.load() {
        Ok(tables) => tables
            .accounts
            .as_slice()
            .iter()
            .fold(0i64, |ids, row| ids.wrapping_mul(10).wrapping_add(row.id)),
        Err(_) => 0,
    }
}

#[test]
fn rows_are_put_by_their_keys_and_dropped(rt: HostRuntime) -> Result<(), Fail> {
    let alloc = rt.alloc();
    let mut keeper = keeper(alloc, 1, &[])?;
    for (id, name, want) in [(5, "e", 5), (2, "b", 25), (7, "g", 257), (5, "f", 257)] {
        keeper.commit(&put(alloc, Row::Account(account(alloc, id, name)?))?)?;
        assert_eq!(rt; ids(&mut keeper), want);
    }
    keeper.commit(&dropping(alloc, RowKey::Account(5))?)?;
    assert_eq!(rt; ids(&mut keeper), 27);
    keeper.commit(&dropping(alloc, RowKey::Account(5))?)?;
    assert_eq!(rt; ids(&mut keeper), 27);
    Ok(())
}

#[test]
fn numbered_calls_fail_and_change_nothing(rt: HostRuntime) -> Result<(), Fail> {
    let alloc = rt.alloc();
    let mut keeper = keeper(alloc, 1, &[1, 3])?;
    assert_eq!(rt; ids(&mut keeper), 0);
    let batch = put(alloc, Row::Account(account(alloc, 4, "ann")?))?;
    assert_eq!(rt; keeper.commit(&batch), Ok(()));
    assert_eq!(rt;
        keeper.commit(&put(alloc, Row::Mark(mark(3, 9)))?),
        Err(CommitFault::Failed)
    );
    assert_eq!(rt; ids(&mut keeper), 4);
    Ok(())
}

fn fault_of(keeper: &mut MemKeeper) -> Option<LoadFault> {
    keeper.load().err()
}

#[test]
fn foreign_and_broken_tables_are_not_loaded(rt: HostRuntime) -> Result<(), Fail> {
    let alloc = rt.alloc();
    let mut foreign = keeper(alloc, 3, &[])?;
    assert_eq!(rt;
        fault_of(&mut foreign),
        Some(LoadFault::Foreign { version: 3 })
    );
    let mut broken = keeper(alloc, 1, &[])?;
    broken.commit(&put(alloc, Row::Account(account(alloc, 1, "ann")?))?)?;
    broken.commit(&put(alloc, Row::Account(account(alloc, 2, "ann")?))?)?;
    assert_eq!(rt;
        fault_of(&mut broken),
        Some(LoadFault::Misfit { rule: 3, row: 2 })
    );
    broken.commit(&dropping(alloc, RowKey::Account(2))?)?;
    assert_eq!(rt; fault_of(&mut broken), None);
    broken.commit(&put(alloc, Row::Session(session(alloc, "s")?))?)?;
    assert_eq!(rt;
        fault_of(&mut broken),
        Some(LoadFault::Misfit { rule: 5, row: 1 })
    );
    Ok(())
}

use crate::{AccountRow, Batch, Change, Keyed, MarkRow, Row, RowKey, Tables, Text};
use login_base::{Duplicate, Memory, Sequence};
use std::alloc::Global;
use std::test::Fail;

fn account(alloc: Global, id: i64, name: &str) -> Result<AccountRow, Memory> {
    Ok(AccountRow {
        id,
        name: Text::new(alloc, name)?,
        roles: Text::new(alloc, "staff")?,
        enabled: 1,
        count: 0,
        last: -1,
        until: 0,
        permanent: 0,
        actions: Text::new(alloc, "")?,
    })
}

fn batch(alloc: Global) -> Result<Batch, Memory> {
    let mut changes = Sequence::new(alloc);
    changes.push(Change::Drop(RowKey::Mark))?;
    changes.push(Change::Put(Row::Account(account(alloc, 1, "ann")?)))?;
    Ok(Batch { changes })
}

#[test]
fn rows_and_changes_are_copied(rt: HostRuntime) -> Result<(), Fail> {
    let alloc = rt.alloc();
    let batch = batch(alloc)?.duplicate(alloc)?;
    assert_eq!(rt; batch.changes.len(), 2);
    let mut tables = Tables::empty(alloc);
    tables.accounts.push(account(alloc, 7, "bob")?)?;
    tables.marks.push(MarkRow {
        schema: 1,
        serial: 7,
        moment: 0,
    })?;
    let copy = tables.duplicate(alloc)?;
    assert_eq!(rt; copy.accounts.len(), 1);
    if let Some(row) = copy.accounts.get(0) {
        assert_eq!(rt; *row.key(), 7);
        assert_eq!(rt; row.name.as_str(), "bob");
    }
    assert!(rt; Text::new(alloc, "a")? < Text::new(alloc, "ab")?);
    Ok(())
}

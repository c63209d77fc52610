use crate::rows::{AccountRow, MarkRow, SecretRow, SessionRow, TokenRow};
use crate::text::Text;
use login_base::{Duplicate, Memory, Sequence};
use realm_data::Realm;
use std::alloc::Global;

/// A row of one of the tables.
#[derive(Debug, Drop)]
pub enum Row {
    Realm { version: u64, realm: Realm },
    Account(AccountRow),
    Secret(SecretRow),
    Session(SessionRow),
    Token(TokenRow),
    Mark(MarkRow),
}

/// The key of a row, by its table.
#[derive(Debug, Drop)]
pub enum RowKey {
    /// A realm's version.
    Realm(u64),
    /// A user's serial.
    Account(i64),
    /// A secret's serial.
    Secret(i64),
    /// The text of a session's id.
    Session(Text),
    /// The text of a token's key.
    Token(Text),
    Mark,
}

/// A change of one row.
#[derive(Debug, Drop)]
pub enum Change {
    /// The row replaces the first row of its key, or joins its table.
    Put(Row),
    /// The first row of this key goes, where there is one.
    Drop(RowKey),
}

/// Changes that are made together, in order.
#[derive(Debug, Drop)]
pub struct Batch {
    pub changes: Sequence<Change>,
}

impl Duplicate for Row {
    fn duplicate(&self, alloc: Global) -> Result<Row, Memory> {
        Ok(match self {
            Row::Realm { version, realm } => Row::Realm {
                version: *version,
                realm: realm.duplicate(alloc)?,
            },
            Row::Account(row) => Row::Account(row.duplicate(alloc)?),
            Row::Secret(row) => Row::Secret(row.duplicate(alloc)?),
            Row::Session(row) => Row::Session(row.duplicate(alloc)?),
            Row::Token(row) => Row::Token(row.duplicate(alloc)?),
            Row::Mark(row) => Row::Mark(*row),
        })
    }
}

impl Duplicate for RowKey {
    fn duplicate(&self, alloc: Global) -> Result<RowKey, Memory> {
        Ok(match self {
            RowKey::Realm(version) => RowKey::Realm(*version),
            RowKey::Account(id) => RowKey::Account(*id),
            RowKey::Secret(serial) => RowKey::Secret(*serial),
            RowKey::Session(id) => RowKey::Session(id.duplicate(alloc)?),
            RowKey::Token(key) => RowKey::Token(key.duplicate(alloc)?),
            RowKey::Mark => RowKey::Mark,
        })
    }
}

impl Duplicate for Change {
    fn duplicate(&self, alloc: Global) -> Result<Change, Memory> {
        Ok(match self {
            Change::Put(row) => Change::Put(row.duplicate(alloc)?),
            Change::Drop(key) => Change::Drop(key.duplicate(alloc)?),
        })
    }
}

impl Duplicate for Batch {
    fn duplicate(&self, alloc: Global) -> Result<Batch, Memory> {
        Ok(Batch {
            changes: self.changes.duplicate(alloc)?,
        })
    }
}

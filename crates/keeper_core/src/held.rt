ghost use Rattle.std.specs.Prelude.{◌≡◌, IfOk};

use crate::table::{drop_row, put_row};
use keeper_rows::{
    AccountRow, Change, MarkRow, RealmRow, Row, RowKey, SecretRow, SessionRow, Tables, TokenRow,
};
use login_base::{Duplicate, Memory, Sequence};
use std::alloc::Global;

/// The rows of tables.
#[derive(Drop)]
pub(crate) struct Held {
    pub(crate) realms: Vec<RealmRow>,
    pub(crate) accounts: Vec<AccountRow>,
    pub(crate) secrets: Vec<SecretRow>,
    pub(crate) sessions: Vec<SessionRow>,
    pub(crate) tokens: Vec<TokenRow>,
    pub(crate) marks: Vec<MarkRow>,
}

/// Copies of rows.
fn copies<R: Duplicate + Drop>(alloc: Global, rows: &[R]) -> Result<Sequence<R>, Memory>
    ensures { IfOk result (λ copies. copies ≡ rows.now) }
{
    let mut copies = Vec::new(alloc);
    for row in rows {
        copies.push(row.duplicate(alloc)?)?;
    }
    Ok(Sequence::from_vec(copies))
}

impl Held {
    ghost use Rattle.std.specs.Prelude.{◌≡◌, ◌+◌, ℕ, IfOk, OnOk, length};
    ghost use Rattle.keeper_rows.specs.Applied.{applied, changed, put_row, drop_row};
    ghost use Rattle.keeper_core.specs.Held.{tables_in, HasRoom};

    /// The rows of these tables, in their memory.
    pub(crate) fn of(tables: Tables) -> Held
        ensures { tables_in result ≡ tables }
    {
        Held {
            realms: tables.realms.into_vec(),
            accounts: tables.accounts.into_vec(),
            secrets: tables.secrets.into_vec(),
            sessions: tables.sessions.into_vec(),
            tokens: tables.tokens.into_vec(),
            marks: tables.marks.into_vec(),
        }
    }

    /// A copy of the tables.
    pub(crate) fn copy(&self, alloc: Global) -> Result<Tables, Memory>
        ensures { IfOk result (λ tables. tables ≡ tables_in self.now) }
    {
        Ok(Tables {
            realms: copies(alloc, self.realms.as_slice())?,
            accounts: copies(alloc, self.accounts.as_slice())?,
            secrets: copies(alloc, self.secrets.as_slice())?,
            sessions: copies(alloc, self.sessions.as_slice())?,
            tokens: copies(alloc, self.tokens.as_slice())?,
            marks: copies(alloc, self.marks.as_slice())?,
        })
    }

    /// Makes room for so many rows more in each table.
    pub(crate) fn reserve(&mut self, count: usize) -> Result<(), Memory>
        ensures ok { OnOk result (HasRoom self.new count) }
        ensures same { tables_in self.new ≡ tables_in self.old }
    {
        self.realms.reserve(count)?;
        self.accounts.reserve(count)?;
        self.secrets.reserve(count)?;
        self.sessions.reserve(count)?;
        self.tokens.reserve(count)?;
        self.marks.reserve(count)?;
        Ok(())
    }

    /// Puts a row into its table. It takes no memory.
    #[tactic(auto, unfolding(keeper_rows::specs::Applied::put_row))]
    fn put(&mut self, row: Row)
        requires room { HasRoom self.old 1 }
        ensures rows { tables_in self.new ≡ put_row row (tables_in self.old) }
        ensures room { (n : ℕ) → HasRoom self.old (n + 1) → HasRoom self.new n }
    {
        match row {
            Row::Realm { version, realm } => put_row(&mut self.realms, RealmRow { version, realm }),
            Row::Account(row) => put_row(&mut self.accounts, row),
            Row::Secret(row) => put_row(&mut self.secrets, row),
            Row::Session(row) => put_row(&mut self.sessions, row),
            Row::Token(row) => put_row(&mut self.tokens, row),
            Row::Mark(row) => put_row(&mut self.marks, row),
        }
    }

    /// Drops the row of a key from its table.
    #[tactic(auto, unfolding(keeper_rows::specs::Applied::drop_row))]
    fn drop_key(&mut self, key: &RowKey)
        ensures rows { tables_in self.new ≡ drop_row key.now (tables_in self.old) }
        ensures room { (n : ℕ) → HasRoom self.old (n + 1) → HasRoom self.new n }
    {
        match key {
            RowKey::Realm(version) => drop_row(&mut self.realms, version),
            RowKey::Account(id) => drop_row(&mut self.accounts, id),
            RowKey::Secret(serial) => drop_row(&mut self.secrets, serial),
            RowKey::Session(id) => drop_row(&mut self.sessions, id),
            RowKey::Token(key) => drop_row(&mut self.tokens, key),
            RowKey::Mark => drop_row(&mut self.marks, &1),
        }
    }

    /// Makes one change.
    fn change(&mut self, change: Change)
        requires room { HasRoom self.old 1 }
        ensures rows { tables_in self.new ≡ changed (tables_in self.old) change }
        ensures room { (n : ℕ) → HasRoom self.old (n + 1) → HasRoom self.new n }
    {
        match change {
            Change::Put(row) => self.put(row),
            Change::Drop(key) => self.drop_key(&key),
        }
    }

    /// Makes changes, in order. It takes no memory.
    pub(crate) fn apply(&mut self, changes: Sequence<Change>)
        requires room { HasRoom self.old (length changes) }
        ensures rows { tables_in self.new ≡ applied changes (tables_in self.old) }
    {
        for change in changes.into_vec() {
            self.change(change);
        }
    }
}

use crate::rows::{AccountRow, MarkRow, RealmRow, SecretRow, SessionRow, TokenRow};
use login_base::{Duplicate, Memory, Sequence};
use std::alloc::Global;

/// The tables, each with its rows in the order in which they are held.
#[derive(Debug, Drop)]
pub struct Tables {
    pub realms: Sequence<RealmRow>,
    pub accounts: Sequence<AccountRow>,
    pub secrets: Sequence<SecretRow>,
    pub sessions: Sequence<SessionRow>,
    pub tokens: Sequence<TokenRow>,
    pub marks: Sequence<MarkRow>,
}

impl Duplicate for Tables {
    fn duplicate(&self, alloc: Global) -> Result<Tables, Memory> {
        Ok(Tables {
            realms: self.realms.duplicate(alloc)?,
            accounts: self.accounts.duplicate(alloc)?,
            secrets: self.secrets.duplicate(alloc)?,
            sessions: self.sessions.duplicate(alloc)?,
            tokens: self.tokens.duplicate(alloc)?,
            marks: self.marks.duplicate(alloc)?,
        })
    }
}

impl Tables {
    ghost use Rattle.std.specs.Prelude.{◌≡◌};
    ghost use Rattle.keeper_rows.specs.Applied.{no_rows};

    /// Tables without a row, which take no memory.
    pub fn empty(alloc: Global) -> Tables
        ensures rows { result ≡ no_rows }
    {
        Tables {
            realms: Sequence::new(alloc),
            accounts: Sequence::new(alloc),
            secrets: Sequence::new(alloc),
            sessions: Sequence::new(alloc),
            tokens: Sequence::new(alloc),
            marks: Sequence::new(alloc),
        }
    }
}

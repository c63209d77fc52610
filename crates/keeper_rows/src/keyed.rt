ghost use Rattle.std.specs.Prelude.{◌≡◌};

use crate::rows::{AccountRow, MarkRow, RealmRow, SecretRow, SessionRow, TokenRow};
use crate::text::Text;

/// A row of a table, which has a key.
pub trait Keyed {
    type Key: Ord;

    ghost key: { Self → Self.Key };

    fn key(&self) -> &Self::Key
        ensures key { result.now ≡ key self.now };
}

impl Keyed for RealmRow {
    type Key = u64;

    ghost key = { λ r. r.version };

    fn key(&self) -> &u64 {
        &self.version
    }
}

impl Keyed for AccountRow {
    type Key = i64;

    ghost key = { λ r. r.id };

    fn key(&self) -> &i64 {
        &self.id
    }
}

impl Keyed for SecretRow {
    type Key = i64;

    ghost key = { λ r. r.serial };

    fn key(&self) -> &i64 {
        &self.serial
    }
}

impl Keyed for SessionRow {
    type Key = Text;

    ghost key = { λ r. r.id };

    fn key(&self) -> &Text {
        &self.id
    }
}

impl Keyed for TokenRow {
    type Key = Text;

    ghost key = { λ r. r.key };

    fn key(&self) -> &Text {
        &self.key
    }
}

/// The key that all mark rows have.
const MARK: u64 = 1;

impl Keyed for MarkRow {
    type Key = u64;

    ghost key = { λ _. 1 };

    fn key(&self) -> &u64 {
        &MARK
    }
}

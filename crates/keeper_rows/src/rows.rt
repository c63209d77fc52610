use crate::text::Text;
use login_base::{Duplicate, Memory, Sequence};
use realm_data::Realm;
use std::alloc::Global;

/// The realm in force, with its version. Its key is the version.
#[derive(Debug, Drop)]
pub struct RealmRow {
    pub version: u64,
    pub realm: Realm,
}

/// A user's account, and what its failures have come to.
#[derive(Debug, Drop)]
pub struct AccountRow {
    /// The user's serial, which is the key.
    pub id: i64,
    pub name: Text,
    /// Names in byte order, joined by commas.
    pub roles: Text,
    /// 1, or 0 where an administrator disabled the account.
    pub enabled: i64,
    /// Failures that count.
    pub count: i64,
    /// The moment of the last failure in milliseconds, -1 for none.
    pub last: i64,
    /// When the lock ends, in milliseconds.
    pub until: i64,
    /// 1 where failures closed the account for good, else 0.
    pub permanent: i64,
    /// The words of the actions to be done, in their order, joined by commas.
    pub actions: Text,
}

/// What a user is known by.
#[derive(Debug, Drop)]
pub struct SecretRow {
    /// The secret's own serial, which is the key.
    pub serial: i64,
    pub user: i64,
    /// `password`, `otp` or `recovery`.
    pub kind: Text,
    /// A password: four big-endian bytes of iterations, one of the salt's length, the salt and the
    /// digest. One-time codes: the key. Recovery codes: their digests in order.
    pub body: Sequence<u8>,
    /// One-time codes: the spent steps of 30 s (RFC 6238) from the newest less 4 on, ascending,
    /// joined by commas. Recovery codes: how many are spent. A password: nothing.
    pub spent: Text,
}

/// A session that hasn't ended.
#[derive(Debug, Drop)]
pub struct SessionRow {
    /// The text of its id, which is the key.
    pub id: Text,
    pub user: i64,
    /// Its first and its last moment of use, in milliseconds.
    pub opened: i64,
    pub seen: i64,
    /// How long it lives, in seconds.
    pub idle: i64,
    pub max: i64,
    /// `<level>@<moment>` for each level reached, by ascending level, joined by commas.
    pub levels: Text,
}

/// A token that was made.
#[derive(Debug, Drop)]
pub struct TokenRow {
    /// The text of the token's key.
    pub key: Text,
    pub user: i64,
    /// `verify_email` or `update_password`.
    pub kind: Text,
    /// The moment from which on it can't be spent, in milliseconds.
    pub expiry: i64,
    /// 1 where it was spent, else 0.
    pub spent: i64,
}

/// How far serials and moments have come. All mark rows have one key.
#[derive(Clone, Copy, Debug, PartialEq, Eq)]
pub struct MarkRow {
    /// The version of the tables' form.
    pub schema: i64,
    /// The greatest serial that a kept thing was given.
    pub serial: i64,
    /// The moment of the last change, in milliseconds.
    pub moment: i64,
}

impl Duplicate for RealmRow {
    fn duplicate(&self, alloc: Global) -> Result<RealmRow, Memory> {
        Ok(RealmRow {
            version: self.version,
            realm: self.realm.duplicate(alloc)?,
        })
    }
}

impl Duplicate for AccountRow {
    fn duplicate(&self, alloc: Global) -> Result<AccountRow, Memory> {
        Ok(AccountRow {
            id: self.id,
            name: self.name.duplicate(alloc)?,
            roles: self.roles.duplicate(alloc)?,
            enabled: self.enabled,
            count: self.count,
            last: self.last,
            until: self.until,
            permanent: self.permanent,
            actions: self.actions.duplicate(alloc)?,
        })
    }
}

impl Duplicate for SecretRow {
    fn duplicate(&self, alloc: Global) -> Result<SecretRow, Memory> {
        Ok(SecretRow {
            serial: self.serial,
            user: self.user,
            kind: self.kind.duplicate(alloc)?,
            body: self.body.duplicate(alloc)?,
            spent: self.spent.duplicate(alloc)?,
        })
    }
}

impl Duplicate for SessionRow {
    fn duplicate(&self, alloc: Global) -> Result<SessionRow, Memory> {
        Ok(SessionRow {
            id: self.id.duplicate(alloc)?,
            user: self.user,
            opened: self.opened,
            seen: self.seen,
            idle: self.idle,
            max: self.max,
            levels: self.levels.duplicate(alloc)?,
        })
    }
}

impl Duplicate for TokenRow {
    fn duplicate(&self, alloc: Global) -> Result<TokenRow, Memory> {
        Ok(TokenRow {
            key: self.key.duplicate(alloc)?,
            user: self.user,
            kind: self.kind.duplicate(alloc)?,
            expiry: self.expiry,
            spent: self.spent,
        })
    }
}

impl Duplicate for MarkRow {
    fn duplicate(&self, _alloc: Global) -> Result<MarkRow, Memory> {
        Ok(*self)
    }
}

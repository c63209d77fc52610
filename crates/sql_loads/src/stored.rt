use keeper_rows::{Keyed, MarkRow};
use realm_data::Realm;

/// A realm as it is stored. Its key is the version.
#[derive(Drop)]
pub(crate) struct StoredRealm {
    pub(crate) version: i64,
    /// The realm, where the text is one's.
    pub(crate) realm: Option<Realm>,
}

/// A mark as it is stored, with its key.
#[derive(Clone, Copy)]
pub(crate) struct StoredMark {
    pub(crate) one: i64,
    pub(crate) row: MarkRow,
}

impl Keyed for StoredRealm {
    type Key = i64;

    ghost key = { λ r. r.version };

    fn key(&self) -> &i64 {
        &self.version
    }
}

impl Keyed for StoredMark {
    type Key = i64;

    ghost key = { λ m. m.one };

    fn key(&self) -> &i64 {
        &self.one
    }
}

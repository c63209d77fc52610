use facts::RootSession;
use login_base::{RootKey, TabKey};

/// A known root that an ask gives, as it stands.
#[derive(Clone, Copy, Debug, PartialEq, Eq)]
pub struct GivenRoot {
    pub root: RootKey,
    /// Its session that is live.
    pub live: Option<RootSession>,
    /// It has fewer known tabs than it may have.
    pub has_room: bool,
}

/// Where a tab is opened, and the level that it asks.
#[derive(Clone, Copy, Debug, PartialEq, Eq)]
pub struct Place {
    pub root: RootKey,
    pub tab: TabKey,
    pub level: u32,
    /// The root's session that is live.
    pub live: Option<RootSession>,
}

use facts::{Opening, TabState};
use login_base::{RootKey, TabKey};

/// A tab that its root has, and what is known of it.
#[derive(Clone, Copy, Debug, PartialEq, Eq)]
pub struct KnownTab {
    pub root: RootKey,
    pub tab: TabKey,
    pub opening: Opening,
    pub state: TabState,
}

//! What is known of a tab, as the facts tell it.
ghost use Rattle.std.specs.Prelude.{◌≡◌};
ghost use Rattle.facts.specs.Places.{last_of};
ghost use Rattle.facts.specs.Tabs.{tab_state};
ghost use Rattle.hall_laws.specs.TabHistory.{opening_by, page_by, name_by, is_completed, last_session};

use facts::Fact;
use login_base::{RootKey, TabKey};

/// A tab has its last opening in the root, its last page and the user that was named last in it; it
/// has completed where it did behind its last opening; and the root has the session that it began
/// last, unless that was ended.
pub fn tab_state_tells(facts: &[Fact], root: RootKey, tab: TabKey)
    ensures opening { (tab_state root tab facts.now).opening ≡ last_of (opening_by root tab) facts.now }
    ensures page { (tab_state root tab facts.now).page ≡ last_of (page_by tab) facts.now }
    ensures named { (tab_state root tab facts.now).named ≡ last_of (name_by tab) facts.now }
    ensures completed { (tab_state root tab facts.now).completed ≡ is_completed tab facts.now }
    ensures session { (tab_state root tab facts.now).session ≡ last_session root facts.now }
{}

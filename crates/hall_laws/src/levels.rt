//! Which session of a root is live, and which levels are fresh in it.
ghost use Rattle.std.specs.Prelude.{◌≡◌, ℕ, ◌-◌, ◌*◌, ◌<◌, ◌≤◌, true, false, Some, None};
ghost use Rattle.std.specs.List.{list_any};
ghost use Rattle.conditions.specs.Truth.{is_young};
ghost use Rattle.facts.specs.Places.{last_of};
ghost use Rattle.facts.specs.Tabs.{tab_state, live_session};
ghost use Rattle.flow_truths.specs.Truth.{is_fresh, cookie_holds};
ghost use Rattle.hall_laws.specs.Levels.{last_reached, behind_beginning, last_used};
ghost use Rattle.hall_laws.specs.TabHistory.{session_by, ends};
ghost use Rattle.login_progress.specs.Login.{login_in};

use facts::{Fact, RootSession};
use flow_tree::Tree;
use login_base::{Moment, RootKey, TabKey, UserId};
use login_progress::KnownTab;

/// The session that a root began last is its live one, unless it was ended since, or wasn't used for
/// `idle` seconds, or began `max` seconds ago or longer: then the root has none.
pub fn session_lives(facts: &[Fact], root: RootKey, tab: TabKey, moment: Moment, begun: RootSession)
    requires begun { last_of (session_by root) facts.now ≡ Some begun }
    ensures ended { list_any (ends begun.session) (behind_beginning root facts.now) ≡ true
        → live_session moment (tab_state root tab facts.now) ≡ None }
    ensures idle { 1000 * begun.idle ≤ moment - last_used root begun facts.now
        → live_session moment (tab_state root tab facts.now) ≡ None }
    ensures old { 1000 * begun.max ≤ moment - begun.opened
        → live_session moment (tab_state root tab facts.now) ≡ None }
    ensures live { list_any (ends begun.session) (behind_beginning root facts.now) ≡ false
        → moment - last_used root begun facts.now < 1000 * begun.idle
        → moment - begun.opened < 1000 * begun.max
        → live_session moment (tab_state root tab facts.now)
        ≡ Some (record begun { seen = last_used root begun facts.now }) }
{}

/// A root that never began a session has none that is live.
pub fn no_session_lives(facts: &[Fact], root: RootKey, tab: TabKey, moment: Moment)
    requires none { last_of (session_by root) facts.now ≡ None }
    ensures none { live_session moment (tab_state root tab facts.now) ≡ None }
{}

/// In a live session a level is fresh where the last fact that records it of that very session is
/// less than so many seconds old. An older one isn't, and with an age of 0 none is.
pub fn level_is_fresh(
    facts: &[Fact],
    moment: Moment,
    known: KnownTab,
    who: Option<UserId>,
    tree: &Tree,
    own: RootSession,
    level: u32,
    age: u64,
)
    requires live { live_session moment known.state ≡ Some own }
    ensures fresh { is_fresh (login_in facts.now moment known who tree.now).view level age
        ≡ is_young age moment (last_reached own.session level facts.now) }
    ensures unreached { last_reached own.session level facts.now ≡ None
        → is_fresh (login_in facts.now moment known who tree.now).view level age ≡ false }
    ensures aged { (reached : ℕ) → last_reached own.session level facts.now ≡ Some reached
        → 1000 * age ≤ moment - reached
        → is_fresh (login_in facts.now moment known who tree.now).view level age ≡ false }
    ensures never { is_fresh (login_in facts.now moment known who tree.now).view level 0 ≡ false }
{}

/// Where the root has no live session, no level is fresh, and a cookie is false.
pub fn nothing_is_fresh(
    facts: &[Fact],
    moment: Moment,
    known: KnownTab,
    who: Option<UserId>,
    tree: &Tree,
    level: u32,
    age: u64,
)
    requires none { live_session moment known.state ≡ None }
    ensures stale { is_fresh (login_in facts.now moment known who tree.now).view level age ≡ false }
    ensures cookie { cookie_holds (login_in facts.now moment known who tree.now).view tree.now ≡ false }
{}

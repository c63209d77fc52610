ghost use Rattle.std.specs.Prelude.{◌≡◌, nat_lt};
ghost use Rattle.facts.specs.Roots.{session_of, root_is_known, tabs_known_in, opens_known_in};
ghost use Rattle.facts.specs.Tabs.{live_among};
ghost use Rattle.root_states.specs.Roots.{is_known, has_room};

use crate::opening::opens_known;
use fact_scans::{FoldAbout, fold_kept, session_after};
use facts::{Fact, Facts, Fold, RootSession, Subject, fold_in};
use login_base::{Moment, RootKey, Steps, same_id};
use std::sync::ledger::Ledger;

/// The most tabs that a root may have.
const MOST_TABS: u32 = 300;

/// How a root stands.
#[derive(Clone, Copy, Debug, PartialEq, Eq)]
pub struct RootState {
    /// Its last session, unless that was ended.
    pub session: Option<RootSession>,
    /// Its known tabs, counted up to 300.
    pub tabs: u32,
}

impl RootState {
    /// The session that is live in it at the moment `now`.
    pub fn live_session(&self, now: Moment) -> Option<RootSession>
        ensures value { result ≡ live_among now self.now.session }
    {
        match self.session {
            Some(own) if own.is_live(now) => Some(own),
            _ => None,
        }
    }

    /// Whether it is known at the moment `now`: by a tab, or by a live session.
    pub fn is_known(&self, now: Moment) -> bool
        ensures value { result ≡ is_known now self.now }
    {
        self.tabs > 0 || self.live_session(now).is_some()
    }

    /// Whether one more tab may be opened in it.
    pub fn has_room(&self) -> bool
        ensures value { result ≡ has_room self.now }
    {
        self.tabs < MOST_TABS
    }
}

/// Carries how a root stands at a moment.
#[derive(Clone, Copy, Debug)]
struct StateOf {
    root: RootKey,
    moment: Moment,
}

impl StateOf {
    /// Whether a fact opens a tab of the root that is known at the moment.
    fn opens_known(&self, fact: &Fact) -> bool
        ensures { result ≡ opens_known_in self.now.moment self.now.root fact.now }
    {
        match fact {
            Fact::Opened { root, .. } => {
                same_id(&root.0, &self.root.0) && opens_known(fact, self.moment)
            }
            _ => false,
        }
    }
}

impl Fold for StateOf {
    ghost use Rattle.root_states.specs.Carrying.{root_after};

    type Carried = RootState;

    ghost carry = { λ s. root_after s.moment s.root };

    fn after(&self, carried: &mut RootState, fact: &Fact) {
        if self.opens_known(fact) {
            carried.tabs = carried.tabs.saturating_add(1).min(MOST_TABS);
        }
        carried.session = session_after(self.root, carried.session, fact);
    }
}

impl FoldAbout for StateOf {
    ghost use Rattle.facts.specs.Subjects.{is_of_root};
    ghost use Rattle.root_states.specs.About.{of_root};

    ghost about = { λ s. is_of_root s.root };

    fn is_about(&self, subject: Subject) -> bool {
        subject.is_of_root(self.root)
    }

    ghost only = { λ s. of_root s.moment s.root };
}

/// How a root stands at the moment `now`. Facts before the first that names it aren't read.
#[tactic(auto, using(crate::proofs::RootLemmas::nothing_before, facts::proofs::PlacesLemmas::fold_append))]
pub fn root_state<L: Ledger>(
    facts: &Facts<'_>,
    root: RootKey,
    now: Moment,
    steps: &mut Steps<L>,
) -> RootState
    ensures session { result.session ≡ session_of root facts.now }
    ensures known { is_known now result ≡ root_is_known now facts.now root }
    ensures room { has_room result ≡ nat_lt (tabs_known_in now root facts.now) 300 }
{
    let nothing = RootState {
        session: None,
        tabs: 0,
    };
    let of = StateOf { root, moment: now };
    let (chronicle, more) = facts.parts();
    let first = chronicle.first_known(root.0.serial);
    fold_in(more, &of, fold_kept(chronicle, &of, first, nothing, steps))
}

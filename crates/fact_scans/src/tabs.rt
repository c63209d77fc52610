ghost use Rattle.std.specs.Prelude.{◌≡◌, Some, fold, if◌then◌else◌};
ghost use Rattle.facts.specs.Tabs.{tab_after, tab_state};
ghost use Rattle.login_base.specs.IdText.{same_id};

use crate::sessions::session_after;
use fact_walks::{FoldAbout, fold_kept};
use facts::{Fact, Facts, Fold, Opening, Page, Subject, TabState, fold_in};
use login_base::{RootKey, Steps, TabKey, same_id};
use std::sync::ledger::Ledger;

/// Carries what is known of a tab of a root.
#[derive(Clone, Copy, Debug)]
struct TabOf {
    root: RootKey,
    tab: TabKey,
}

impl TabOf {
    fn is_tab(&self, tab: &TabKey) -> bool
        ensures { result ≡ same_id tab.now.0 self.now.tab.0 }
    {
        same_id(&tab.0, &self.tab.0)
    }

    /// The opening after one of this tab: only one in the root counts.
    fn opening(&self, root: &RootKey, new: Opening, own: Option<Opening>) -> Option<Opening>
        ensures { result ≡ (if same_id root.now.0 self.now.root.0 then Some new else own) }
    {
        if same_id(&root.0, &self.root.0) {
            Some(new)
        } else {
            own
        }
    }
}

impl Fold for TabOf {
    ghost use Rattle.facts.specs.Tabs.{tab_after};

    type Carried = TabState;

    ghost carry = { λ t. tab_after t.root t.tab };

    fn after(&self, carried: &mut TabState, fact: &Fact) {
        match fact {
            Fact::Opened {
                root,
                tab,
                version,
                level,
                life,
                moment,
            } if self.is_tab(tab) => {
                let new = Opening {
                    version: *version,
                    level: *level,
                    life: *life,
                    moment: *moment,
                };
                carried.opening = self.opening(root, new, carried.opening);
                carried.completed = false;
            }
            Fact::Rendered {
                tab,
                code,
                action,
                offer,
            } if self.is_tab(tab) => {
                carried.page = Some(Page {
                    code: *code,
                    action: *action,
                    offer: *offer,
                });
            }
            Fact::Named { tab, user } if self.is_tab(tab) => carried.named = Some(*user),
            Fact::Completed { tab, .. } if self.is_tab(tab) => carried.completed = true,
            Fact::Session { .. } | Fact::Seen { .. } | Fact::SessionEnd { .. } => {
                carried.session = session_after(self.root, carried.session, fact);
            }
            _ => {}
        }
    }
}

impl FoldAbout for TabOf {
    ghost use Rattle.facts.specs.Subjects.{concerns};
    ghost use Rattle.facts.proofs.SubjectLemmas.{unconcerned};

    ghost about = { λ t. concerns t.root t.tab };

    fn is_about(&self, subject: Subject) -> bool {
        subject.concerns(self.root, self.tab)
    }

    ghost only = { λ t. unconcerned t.root t.tab };
}

/// What is known of a tab of a root. Facts before the first that names either aren't read.
#[tactic(auto, unfolding(facts::specs::Tabs::tab_state), using(facts::proofs::TabLemmas::nothing_before, facts::proofs::PlacesLemmas::fold_append))]
pub fn tab_state<L: Ledger>(
    facts: &Facts<'_>,
    root: RootKey,
    tab: TabKey,
    steps: &mut Steps<L>,
) -> TabState
    ensures value { result ≡ tab_state root tab facts.now }
{
    let nothing = TabState {
        opening: None,
        page: None,
        named: None,
        completed: false,
        session: None,
    };
    let of = TabOf { root, tab };
    let (chronicle, more) = facts.parts();
    let first = chronicle.first_known(root.0.serial.min(tab.0.serial));
    fold_in(more, &of, fold_kept(chronicle, &of, first, nothing, steps))
}

/// What is known of a tab of a root, where this was known before these facts.
pub fn tab_state_with(state: TabState, root: RootKey, tab: TabKey, more: &[Fact]) -> TabState
    ensures value { result ≡ fold (tab_after root tab) state more.now }
{
    fold_in(more, &TabOf { root, tab }, state)
}

//! What the page of an action offers.
ghost use Rattle.std.specs.Prelude.{◌≡◌, IfOk};
ghost use Rattle.tab_pages.specs.Offering.{is_action, is_shown, offer_on, offer_for, shown_in};

use fact_scans::realm_of;
use facts::{Action, Facts, Page};
use login_base::{Draws, Memory, Sequence, Steps};
use login_progress::KnownTab;
use offers::{offer_of, shown_for};
use std::alloc::Global;
use std::sync::ledger::Ledger;

/// Nothing is offered.
pub const NO_OFFER: [u8; 32] = [0; 32];

fn is_action(asked: Option<Action>, action: Action) -> bool
    ensures { result ≡ is_action asked action }
{
    match asked {
        Some(asked) => asked == action,
        None => false,
    }
}

/// Whether the page that was shown last asks this action.
pub fn is_shown(page: &Option<Page>, action: Action) -> bool
    ensures value { result ≡ is_shown page.now action }
{
    match page {
        Some(page) => is_action(page.action, action),
        None => false,
    }
}

/// What the page that was shown last offers.
pub fn offer_on(page: &Option<Page>) -> [u8; 32]
    ensures value { result ≡ offer_on page.now }
{
    match page {
        Some(page) => page.offer,
        None => NO_OFFER,
    }
}

/// What the page of an action offers: the same while it is shown again, else the offer of the ask.
pub fn offer_for(page: &Option<Page>, action: Action, draws: &Draws) -> [u8; 32]
    ensures value { result ≡ offer_for page.now action draws.now }
{
    if is_shown(page, action) {
        offer_on(page)
    } else {
        offer_of(draws)
    }
}

/// The texts that the page of an action shows.
#[tactic(auto, unfolding(crate::specs::Offering::shown_in))]
pub fn shown_in<L: Ledger>(
    alloc: Global,
    facts: &Facts<'_>,
    known: &KnownTab,
    action: Action,
    offer: &[u8; 32],
    steps: &mut Steps<L>,
) -> Result<Sequence<Sequence<u8>>, Memory>
    ensures ok { IfOk result (λ shown. shown ≡ shown_in facts.now known.now action offer.now) }
{
    match realm_of(facts, known.opening.version, steps) {
        Some(realm) => shown_for(alloc, action, offer, realm.recovery_count()),
        None => Ok(Sequence::new(alloc)),
    }
}

ghost use Rattle.std.specs.Prelude.{◌≡◌, ◌<◌, false, Some, None, length, option_map, slice_get};
ghost use Rattle.std.specs.Option.{option_copied};
ghost use Rattle.facts.specs.declared.fact.Fact.{Fact};
ghost use Rattle.facts.specs.Accounts.{account_facts};
ghost use Rattle.facts.specs.Places.{last_of};
ghost use Rattle.facts.specs.Subjects.{subject_of, is_account};

use facts::{Chronicle, Facts, Hold, last_held_in};
use login_base::Steps;
use std::sync::ledger::Ledger;

/// Something that facts about accounts may hold.
pub trait AccountHold: Hold {
    /// A fact that isn't about an account doesn't hold it.
    ghost only_of_accounts: { (hold : Self) (fact : Fact) → is_account (subject_of fact) ≡ false
        → Self.Hold.held hold fact ≡ None };
}

/// What the fact at a place holds, which is read only where it may hold something.
fn held_at<'a, P: Hold, L: Ledger>(
    chronicle: &'a Chronicle,
    hold: &P,
    index: usize,
    steps: &mut Steps<L>,
) -> Option<&'a P::Held>
    requires within { index < length chronicle.now.list }
    ensures { option_map (P.held hold.now) (slice_get chronicle.now.list index) ≡ Some (option_copied result) }
{
    if !hold.is_about(chronicle.subject(index)) {
        return None;
    }
    hold.of(chronicle.at(index, steps))
}

/// What the last fact of a chronicle holds that holds something.
fn last_held_kept<'a, P: Hold, L: Ledger>(
    chronicle: &'a Chronicle,
    hold: &P,
    steps: &mut Steps<L>,
) -> Option<&'a P::Held>
    ensures { option_copied result ≡ last_of (P.held hold.now) chronicle.now.list }
{
    let mut end = chronicle.len();
    while end > 0 {
        end -= 1;
        if let Some(held) = held_at(chronicle, hold, end, steps) {
            return Some(held);
        }
    }
    None
}

/// What the last fact holds that holds something.
#[tactic(auto, using(facts::proofs::PlacesLemmas::last_of_append))]
pub fn last_held<'a, P: Hold, L: Ledger>(
    facts: &Facts<'a>,
    hold: &P,
    steps: &mut Steps<L>,
) -> Option<&'a P::Held>
    ensures value { option_copied result ≡ last_of (P.held hold.now) facts.now }
{
    let (chronicle, more) = facts.parts();
    match last_held_in(more, hold) {
        Some(found) => Some(found),
        None => last_held_kept(chronicle, hold, steps),
    }
}

/// What the last of a chronicle's facts about accounts holds that holds something.
fn last_held_of_accounts<'a, P: Hold, L: Ledger>(
    chronicle: &'a Chronicle,
    hold: &P,
    steps: &mut Steps<L>,
) -> Option<&'a P::Held>
    ensures { option_copied result ≡ last_of (P.held hold.now) (account_facts chronicle.now.list) }
{
    let mut end = chronicle.account_count();
    while end > 0 {
        end -= 1;
        if let Some(held) = held_at(chronicle, hold, chronicle.account_place(end), steps) {
            return Some(held);
        }
    }
    None
}

/// What the last fact holds that holds something, where that is one about an account. No other fact
/// of the chronicle is looked at.
#[tactic(auto, using(facts::proofs::PlacesLemmas::last_of_append, crate::proofs::OfAccounts::last_of_accounts))]
pub fn last_held_by_account<'a, P: AccountHold, L: Ledger>(
    facts: &Facts<'a>,
    hold: &P,
    steps: &mut Steps<L>,
) -> Option<&'a P::Held>
    ensures value { option_copied result ≡ last_of (P.Hold.held hold.now) facts.now }
{
    let (chronicle, more) = facts.parts();
    match last_held_in(more, hold) {
        Some(found) => Some(found),
        None => last_held_of_accounts(chronicle, hold, steps),
    }
}

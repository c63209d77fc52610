ghost use Rattle.std.specs.Prelude.{◌≡◌, ◌<◌, Bool, false, Option, Some, None, length, option_map, slice_get};
ghost use Rattle.std.specs.Option.{option_or};
ghost use Rattle.facts.specs.declared.fact.Fact.{Fact};
ghost use Rattle.facts.specs.declared.subject.Subject.{Subject};
ghost use Rattle.facts.specs.Accounts.{account_facts};
ghost use Rattle.facts.specs.Places.{last_of};
ghost use Rattle.facts.specs.Subjects.{subject_of, is_account};

use facts::{Chronicle, Fact, Facts, Subject};
use login_base::Steps;
use std::sync::ledger::Ledger;

/// A question to each fact.
pub trait Pick {
    type Out: Copy;

    /// What it picks of a fact.
    ghost pick: { Self → Fact → Option Self.Out };

    /// The subjects of the facts of which it may pick something.
    ghost about: { Self → Subject → Bool };

    /// Picks it, where there is something.
    fn of(&self, fact: &Fact) -> Option<Self::Out>
        ensures value { result ≡ pick self.now fact.now };

    /// Whether it may pick something of a fact of this subject.
    fn is_about(&self, subject: Subject) -> bool
        ensures value { result ≡ about self.now subject };

    /// Of a fact of another subject it picks nothing.
    ghost only: { (question : Self) (fact : Fact) → about question (subject_of fact) ≡ false → pick question fact ≡ None };
}

/// A question to the facts about accounts.
pub trait AccountPick: Pick {
    /// Of a fact that isn't about an account it picks nothing.
    ghost only_of_accounts: { (question : Self) (fact : Fact) → is_account (subject_of fact) ≡ false
        → Self.Pick.pick question fact ≡ None };
}

/// Takes what is newer, in its place: most facts have nothing new.
fn renew<A: Copy>(found: &mut Option<A>, new: Option<A>)
    ensures { found.new ≡ option_or new found.old }
{
    if new.is_some() {
        *found = new;
    }
}

/// What is picked of the last of these facts of which something is picked.
fn last_in<P: Pick>(more: &[Fact], pick: &P) -> Option<P::Out>
    ensures { result ≡ last_of (P.pick pick.now) more.now }
{
    let mut found = None;
    for fact in more {
        renew(&mut found, pick.of(fact));
    }
    found
}

/// What is picked of the fact at a place, which is read only where there may be something.
fn picked_at<P: Pick, L: Ledger>(
    chronicle: &Chronicle,
    pick: &P,
    index: usize,
    steps: &mut Steps<L>,
) -> Option<P::Out>
    requires within { index < length chronicle.now.list }
    ensures { option_map (P.pick pick.now) (slice_get chronicle.now.list index) ≡ Some result }
{
    if !pick.is_about(chronicle.subject(index)) {
        return None;
    }
    pick.of(chronicle.at(index, steps))
}

/// What is picked of the last fact of a chronicle of which something is picked.
fn last_kept<P: Pick, L: Ledger>(
    chronicle: &Chronicle,
    pick: &P,
    steps: &mut Steps<L>,
) -> Option<P::Out>
    ensures { result ≡ last_of (P.pick pick.now) chronicle.now.list }
{
    let mut end = chronicle.len();
    while end > 0 {
        end -= 1;
        let found = picked_at(chronicle, pick, end, steps);
        if found.is_some() {
            return found;
        }
    }
    None
}

/// What is picked of the last fact of which something is picked.
#[tactic(auto, using(facts::proofs::PlacesLemmas::last_of_append))]
pub fn last_by<P: Pick, L: Ledger>(
    facts: &Facts<'_>,
    pick: &P,
    steps: &mut Steps<L>,
) -> Option<P::Out>
    ensures value { result ≡ last_of (P.pick pick.now) facts.now }
{
    let (chronicle, more) = facts.parts();
    match last_in(more, pick) {
        Some(found) => Some(found),
        None => last_kept(chronicle, pick, steps),
    }
}

/// What is picked of the last of a chronicle's facts about accounts of which something is picked.
fn last_of_accounts<P: Pick, L: Ledger>(
    chronicle: &Chronicle,
    pick: &P,
    steps: &mut Steps<L>,
) -> Option<P::Out>
    ensures { result ≡ last_of (P.pick pick.now) (account_facts chronicle.now.list) }
{
    let mut end = chronicle.account_count();
    while end > 0 {
        end -= 1;
        let found = picked_at(chronicle, pick, chronicle.account_place(end), steps);
        if found.is_some() {
            return found;
        }
    }
    None
}

/// What is picked of the last fact of which something is picked, where that is one about an account.
/// No other fact of the chronicle is looked at.
#[tactic(auto, using(facts::proofs::PlacesLemmas::last_of_append, crate::proofs::OfAccounts::last_of_accounts))]
pub fn last_by_account<P: AccountPick, L: Ledger>(
    facts: &Facts<'_>,
    pick: &P,
    steps: &mut Steps<L>,
) -> Option<P::Out>
    ensures value { result ≡ last_of (P.Pick.pick pick.now) facts.now }
{
    let (chronicle, more) = facts.parts();
    match last_in(more, pick) {
        Some(found) => Some(found),
        None => last_of_accounts(chronicle, pick, steps),
    }
}

ghost use Rattle.std.specs.Prelude.{◌≡◌, ◌<◌, [], ◌∷◌, length, IfOk, IsOk, IsTrue, OnOk};
ghost use Rattle.account_states.specs.Count.{account_count, has_few_puts, has_room, users_put, Gains};

use fact_scans::{FoldAbout, fold_by};
use facts::{Chronicle, Fact, Facts, Fold, Subject};
use login_base::{Memory, Steps};
use std::alloc::Global;
use std::collections::BTreeSet;
use std::sync::ledger::Ledger;

/// The most accounts that may be.
const MOST_ACCOUNTS: usize = 100_000;

/// Carries how many facts put a user.
#[derive(Clone, Copy, Debug)]
struct Puts;

impl Fold for Puts {
    ghost use Rattle.account_states.specs.Carrying.{puts_after};

    type Carried = usize;

    ghost carry = { λ _. puts_after };

    fn after(&self, carried: &mut usize, fact: &Fact) {
        match fact {
            Fact::UserPut { .. } => *carried = (*carried).saturating_add(1),
            _ => {}
        }
    }
}

impl FoldAbout for Puts {
    ghost use Rattle.facts.specs.Subjects.{is_account};
    ghost use Rattle.account_states.specs.About.{of_puts};

    ghost about = { λ _. is_account };

    fn is_about(&self, subject: Subject) -> bool {
        subject.is_account()
    }

    ghost only = { λ _. of_puts };
}

/// Adds the user whom a fact puts.
#[tactic(auto, using(crate::proofs::CountLemmas::gains_nothing, crate::proofs::CountLemmas::gains_one))]
fn note(seen: &mut BTreeSet<u64>, fact: &Fact) -> Result<(), Memory>
    ensures { OnOk result (Gains seen.old (users_put (fact.now ∷ [])) seen.new) }
{
    match fact {
        Fact::UserPut { user, .. } => {
            seen.insert(user.0)?;
            Ok(())
        }
        _ => Ok(()),
    }
}

/// Adds the users whom these facts put.
fn note_more(seen: &mut BTreeSet<u64>, more: &[Fact]) -> Result<(), Memory>
    ensures { OnOk result (Gains seen.old (users_put more.now) seen.new) }
{
    for fact in more {
        note(seen, fact)?;
    }
    Ok(())
}

/// Adds the users whom the facts of a chronicle put.
fn note_kept<L: Ledger>(
    seen: &mut BTreeSet<u64>,
    chronicle: &Chronicle,
    steps: &mut Steps<L>,
) -> Result<(), Memory>
    ensures { OnOk result (Gains seen.old (users_put chronicle.now.list) seen.new) }
{
    for i in 0..chronicle.len() {
        note(seen, chronicle.at(i, steps))?;
    }
    Ok(())
}

/// How many accounts there are.
pub(crate) fn account_count<L: Ledger>(
    alloc: Global,
    facts: &Facts<'_>,
    steps: &mut Steps<L>,
) -> Result<usize, Memory>
    ensures { IfOk result (λ count. count ≡ account_count facts.now) }
{
    let (chronicle, more) = facts.parts();
    let mut seen = BTreeSet::new(alloc);
    note_kept(&mut seen, chronicle, steps)?;
    note_more(&mut seen, more)?;
    Ok(seen.len())
}

/// Whether fewer facts put a user than accounts may be, so that they needn't be told apart. A
/// shorter list isn't read.
fn has_few_puts<L: Ledger>(facts: &Facts<'_>, steps: &mut Steps<L>) -> bool
    ensures value { result ≡ has_few_puts facts.now }
    ensures unread { length facts.now < 100000 → steps.new ≡ steps.old }
{
    let (chronicle, more) = facts.parts();
    if chronicle.len().saturating_add(more.len()) < MOST_ACCOUNTS {
        return true;
    }
    fold_by(facts, &Puts, 0, steps) < MOST_ACCOUNTS
}

/// Whether there is room for one more account. Where users were put less often than accounts may
/// be, it takes no memory, and a list of fewer facts isn't read.
#[tactic(auto, unfolding(crate::specs::Count::has_room), using(crate::proofs::CountLemmas::room_of_few))]
pub fn has_room<L: Ledger>(
    alloc: Global,
    facts: &Facts<'_>,
    steps: &mut Steps<L>,
) -> Result<bool, Memory>
    ensures ok { IfOk result (λ room. room ≡ has_room facts.now) }
    ensures free { IsTrue (has_few_puts facts.now) → IsOk result }
    ensures unread { length facts.now < 100000 → steps.new ≡ steps.old }
{
    if has_few_puts(facts, steps) {
        return Ok(true);
    }
    Ok(account_count(alloc, facts, steps)? < MOST_ACCOUNTS)
}

ghost use Rattle.std.specs.Prelude.{◌≡◌, ◌<◌, ◌++◌, length, option_map, slice_get, IfOk, OnOk, Some};
ghost use Rattle.std.specs.List.{flat_map};
ghost use Rattle.facts.specs.Spent.{step_spent, spent_steps, codes_spent};

use fact_walks::{FoldAbout, fold_by};
use facts::{Chronicle, Fact, Facts, Fold, Subject};
use login_base::{Memory, Sequence, Steps};
use std::alloc::Global;
use std::sync::ledger::Ledger;

/// Adds the step whose code of the secret a fact spends.
fn add_step(serial: u64, spent: &mut Sequence<u64>, fact: &Fact) -> Result<(), Memory>
    ensures { OnOk result (spent.new ≡ spent.old ++ step_spent serial fact.now) }
{
    match fact {
        Fact::SpentStep { credential, step } if *credential == serial => spent.push(*step),
        _ => Ok(()),
    }
}

/// Adds those of these facts.
fn add_steps(serial: u64, spent: &mut Sequence<u64>, more: &[Fact]) -> Result<(), Memory>
    ensures { OnOk result (spent.new ≡ spent.old ++ flat_map (step_spent serial) more.now) }
{
    for fact in more {
        add_step(serial, spent, fact)?;
    }
    Ok(())
}

/// Adds that of the fact at a place, which is read only where it is about the secret.
#[tactic(auto, using(crate::proofs::SpentLemmas::no_step_at))]
fn add_step_at<L: Ledger>(
    serial: u64,
    spent: &mut Sequence<u64>,
    chronicle: &Chronicle,
    index: usize,
    steps: &mut Steps<L>,
) -> Result<(), Memory>
    requires within { index < length chronicle.now.list }
    ensures { OnOk result (option_map (λ fact. spent.old ++ step_spent serial fact) (slice_get chronicle.now.list index)
        ≡ Some spent.new) }
{
    if chronicle.subject(index).is_of_secret(serial) {
        return add_step(serial, spent, chronicle.at(index, steps));
    }
    Ok(())
}

/// Adds those of a chronicle.
fn add_kept_steps<L: Ledger>(
    serial: u64,
    spent: &mut Sequence<u64>,
    chronicle: &Chronicle,
    steps: &mut Steps<L>,
) -> Result<(), Memory>
    ensures { OnOk result (spent.new ≡ spent.old ++ flat_map (step_spent serial) chronicle.now.list) }
{
    for i in 0..chronicle.len() {
        add_step_at(serial, spent, chronicle, i, steps)?;
    }
    Ok(())
}

/// The time steps (RFC 6238) whose codes were used, of the secret with this serial, in the order
/// in which they were.
#[tactic(auto, unfolding(facts::specs::Spent::spent_steps))]
pub fn spent_steps<L: Ledger>(
    alloc: Global,
    facts: &Facts<'_>,
    serial: u64,
    steps: &mut Steps<L>,
) -> Result<Sequence<u64>, Memory>
    ensures ok { IfOk result (λ spent. spent ≡ spent_steps serial facts.now) }
{
    let (chronicle, more) = facts.parts();
    let mut spent = Sequence::new(alloc);
    add_kept_steps(serial, &mut spent, chronicle, steps)?;
    add_steps(serial, &mut spent, more)?;
    Ok(spent)
}

/// Carries the greatest number of a used recovery code.
#[derive(Clone, Copy, Debug)]
struct NumberSpent {
    serial: u64,
}

impl Fold for NumberSpent {
    ghost use Rattle.facts.specs.Spent.{number_after};

    type Carried = u32;

    ghost carry = { λ n. number_after n.serial };

    fn after(&self, carried: &mut u32, fact: &Fact) {
        match fact {
            Fact::SpentRecovery { credential, number } if *credential == self.serial => {
                *carried = (*carried).max(*number);
            }
            _ => {}
        }
    }
}

impl FoldAbout for NumberSpent {
    ghost use Rattle.facts.specs.Subjects.{is_of_secret};
    ghost use Rattle.fact_scans.specs.About.{of_numbers};

    ghost about = { λ n. is_of_secret n.serial };

    fn is_about(&self, subject: Subject) -> bool {
        subject.is_of_secret(self.serial)
    }

    ghost only = { λ n. of_numbers n.serial };
}

/// How many recovery codes were used of the list with this serial.
#[tactic(auto, unfolding(facts::specs::Spent::codes_spent))]
pub fn codes_spent<L: Ledger>(facts: &Facts<'_>, serial: u64, steps: &mut Steps<L>) -> u32
    ensures value { result ≡ codes_spent serial facts.now }
{
    fold_by(facts, &NumberSpent { serial }, 0, steps)
}

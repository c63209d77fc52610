ghost use Rattle.std.specs.Prelude.{◌≡◌, ◌<◌, ◌≤◌, Bool, false, Some, fold, length, take, option_map, slice_get};
ghost use Rattle.facts.specs.declared.fact.Fact.{Fact};
ghost use Rattle.facts.specs.declared.subject.Subject.{Subject};
ghost use Rattle.facts.specs.Subjects.{subject_of};

use facts::{Chronicle, Facts, Fold, Subject, fold_in};
use login_base::Steps;
use std::sync::ledger::Ledger;

/// Something that is carried over the facts of some subjects.
pub trait FoldAbout: Fold {
    /// The subjects of the facts that may change it.
    ghost about: { Self → Subject → Bool };

    /// Whether a fact of this subject may change it.
    fn is_about(&self, subject: Subject) -> bool
        ensures value { result ≡ about self.now subject };

    /// A fact of another subject leaves it as it is.
    ghost only: { (step : Self) (carried : Self.Carried) (fact : Fact) → about step (subject_of fact) ≡ false
        → Self.Fold.carry step carried fact ≡ carried };
}

/// Carries it over the fact at a place, which is read only where it may change something.
fn carry_at<F: FoldAbout, L: Ledger>(
    step: &F,
    carried: &mut F::Carried,
    chronicle: &Chronicle,
    index: usize,
    steps: &mut Steps<L>,
)
    requires within { index < length chronicle.now.list }
    ensures { option_map (F.Fold.carry step.now carried.old) (slice_get chronicle.now.list index) ≡ Some carried.new }
{
    if step.is_about(chronicle.subject(index)) {
        step.after(carried, chronicle.at(index, steps));
    }
}

/// What is carried to the end of a chronicle, where the facts before this place leave it as it is.
pub fn fold_kept<F: FoldAbout, L: Ledger>(
    chronicle: &Chronicle,
    step: &F,
    from: usize,
    start: F::Carried,
    steps: &mut Steps<L>,
) -> F::Carried
    requires within { from ≤ length chronicle.now.list }
    requires before { fold (F.Fold.carry step.now) start (take from chronicle.now.list) ≡ start }
    ensures value { result ≡ fold (F.Fold.carry step.now) start chronicle.now.list }
{
    let mut carried = start;
    for i in from..chronicle.len() {
        carry_at(step, &mut carried, chronicle, i, steps);
    }
    carried
}

/// What is carried to the end.
#[tactic(auto, using(facts::proofs::PlacesLemmas::fold_append))]
pub fn fold_by<F: FoldAbout, L: Ledger>(
    facts: &Facts<'_>,
    step: &F,
    start: F::Carried,
    steps: &mut Steps<L>,
) -> F::Carried
    ensures value { result ≡ fold (F.Fold.carry step.now) start facts.now }
{
    let (chronicle, more) = facts.parts();
    fold_in(more, step, fold_kept(chronicle, step, 0, start, steps))
}

ghost use Rattle.std.specs.Prelude.{◌≡◌};
ghost use Rattle.facts.specs.Moments.{last_used_moment};

use fact_walks::{Pick, last_by};
use facts::{Fact, Facts, Subject};
use login_base::{Moment, Steps};
use std::sync::ledger::Ledger;

/// Picks the used moment of a mark.
#[derive(Clone, Copy, Debug)]
struct UsedMoment;

impl Pick for UsedMoment {
    ghost use Rattle.facts.specs.Moments.{used_by};
    ghost use Rattle.facts.specs.Subjects.{is_other};
    ghost use Rattle.fact_scans.specs.About.{of_mark};

    type Out = Moment;

    ghost pick = { λ _. used_by };

    ghost about = { λ _. is_other };

    fn of(&self, fact: &Fact) -> Option<Moment> {
        match fact {
            Fact::Mark { used_moment, .. } => Some(*used_moment),
            _ => None,
        }
    }

    fn is_about(&self, subject: Subject) -> bool {
        subject.is_other()
    }

    ghost only = { λ _. of_mark };
}

/// The used moment of the last mark, 0 where there is none.
#[tactic(auto, unfolding(facts::specs::Moments::last_used_moment))]
pub fn last_used_moment<L: Ledger>(facts: &Facts<'_>, steps: &mut Steps<L>) -> Moment
    ensures value { result ≡ last_used_moment facts.now }
{
    last_by(facts, &UsedMoment, steps).unwrap_or(Moment::ZERO)
}

ghost use Rattle.std.specs.Prelude.{◌≡◌, []};
ghost use Rattle.flow_tree.specs.Flow.{leaf_verdict, test_verdict, stands};
ghost use Rattle.flow_tree.specs.Tally.{tallied, tally_holds, tally_verdict, tally_of};

use crate::exec::Requirement;

/// What an execution is to the flow that it stands in.
#[derive(Clone, Copy, Debug, PartialEq, Eq)]
pub struct Verdict {
    /// It takes part.
    pub acts: bool,
    /// It is an enabled alternative, and no condition.
    pub offers: bool,
    /// It is an enabled condition that is true.
    pub opens: bool,
    /// It is an enabled condition that isn't true.
    pub blocks: bool,
    /// It is satisfied.
    pub holds: bool,
}

impl Verdict {
    /// It takes part and is satisfied.
    pub fn stands(self) -> bool
        ensures { result ≡ stands self }
    {
        self.acts && self.holds
    }

    pub fn of_leaf(requirement: Requirement, is_true: bool) -> Verdict
        ensures { result ≡ leaf_verdict requirement is_true }
    {
        Verdict {
            acts: requirement.is_required(),
            offers: requirement.is_alternative(),
            opens: false,
            blocks: false,
            holds: is_true,
        }
    }

    pub fn of_condition(requirement: Requirement, is_true: bool) -> Verdict
        ensures { result ≡ test_verdict requirement is_true }
    {
        let is_enabled = requirement.is_required();
        Verdict {
            acts: false,
            offers: false,
            opens: is_enabled && is_true,
            blocks: is_enabled && !is_true,
            holds: false,
        }
    }

    pub fn of_flow(requirement: Requirement, tally: Tally) -> Verdict
        ensures { result ≡ tally_verdict requirement tally }
    {
        Verdict {
            acts: requirement.is_required()
                || (requirement.is_conditional() && tally.opens && !tally.blocks),
            offers: requirement.is_alternative(),
            opens: false,
            blocks: false,
            holds: tally.holds(),
        }
    }
}

/// The verdicts on the executions of a flow, taken together.
#[derive(Clone, Copy, Debug, PartialEq, Eq)]
pub struct Tally {
    /// Some execution acts.
    pub acts: bool,
    /// Each that acts holds.
    pub each_holds: bool,
    /// Some alternative holds.
    pub offer_holds: bool,
    /// Some enabled condition is true.
    pub opens: bool,
    /// Some enabled condition isn't true.
    pub blocks: bool,
}

impl Tally {
    pub fn empty() -> Tally
        ensures { result ≡ tally_of [] }
    {
        Tally {
            acts: false,
            each_holds: true,
            offer_holds: false,
            opens: false,
            blocks: false,
        }
    }

    pub fn with(self, verdict: Verdict) -> Tally
        ensures { result ≡ tallied self verdict }
    {
        Tally {
            acts: self.acts || verdict.acts,
            each_holds: self.each_holds && (!verdict.acts || verdict.holds),
            offer_holds: self.offer_holds || (verdict.offers && verdict.holds),
            opens: self.opens || verdict.opens,
            blocks: self.blocks || verdict.blocks,
        }
    }

    pub fn holds(self) -> bool
        ensures { result ≡ tally_holds self }
    {
        if self.acts {
            self.each_holds
        } else {
            self.offer_holds
        }
    }
}

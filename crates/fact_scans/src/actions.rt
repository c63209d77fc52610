ghost use Rattle.std.specs.Prelude.{◌≡◌};
ghost use Rattle.std.specs.Prelude.{find};
ghost use Rattle.facts.specs.Actions.{first_pending, in_order};
ghost use Rattle.fact_scans.specs.Carrying.{nothing_pending, is_in, with_action};

use fact_walks::{FoldAbout, fold_by};
use facts::{Action, Fact, Facts, Fold, Subject};
use login_base::{Steps, UserId};
use std::sync::ledger::Ledger;

/// Which actions are pending for a user.
#[derive(Clone, Copy, Debug, PartialEq, Eq)]
pub struct Pending {
    pub terms: bool,
    pub verify_email: bool,
    pub update_password: bool,
    pub configure_otp: bool,
    pub recovery_codes: bool,
}

impl Pending {
    fn nothing() -> Pending
        ensures { result ≡ nothing_pending }
    {
        Pending {
            terms: false,
            verify_email: false,
            update_password: false,
            configure_otp: false,
            recovery_codes: false,
        }
    }

    fn with_action(self, action: Action, is: bool) -> Pending
        ensures { result ≡ with_action self action is }
    {
        match action {
            Action::Terms => Pending { terms: is, ..self },
            Action::VerifyEmail => Pending {
                verify_email: is,
                ..self
            },
            Action::UpdatePassword => Pending {
                update_password: is,
                ..self
            },
            Action::ConfigureOtp => Pending {
                configure_otp: is,
                ..self
            },
            Action::RecoveryCodes => Pending {
                recovery_codes: is,
                ..self
            },
        }
    }

    /// The first of them, in the order in which they are asked.
    fn first(self) -> Option<Action>
        ensures { result ≡ find (is_in self) in_order }
    {
        if self.terms {
            Some(Action::Terms)
        } else if self.verify_email {
            Some(Action::VerifyEmail)
        } else if self.update_password {
            Some(Action::UpdatePassword)
        } else if self.configure_otp {
            Some(Action::ConfigureOtp)
        } else if self.recovery_codes {
            Some(Action::RecoveryCodes)
        } else {
            None
        }
    }
}

/// Carries which actions are pending for a user.
#[derive(Clone, Copy, Debug)]
struct PendingFor {
    user: UserId,
}

impl Fold for PendingFor {
    ghost use Rattle.fact_scans.specs.Carrying.{pending_after};

    type Carried = Pending;

    ghost carry = { λ p. pending_after p.user };

    fn after(&self, carried: &mut Pending, fact: &Fact) {
        match fact {
            Fact::ActionSet { user, kind } if user.0 == self.user.0 => {
                *carried = carried.with_action(*kind, true);
            }
            Fact::ActionDone { user, kind } if user.0 == self.user.0 => {
                *carried = carried.with_action(*kind, false);
            }
            _ => {}
        }
    }
}

impl FoldAbout for PendingFor {
    ghost use Rattle.facts.specs.Subjects.{is_of_user};
    ghost use Rattle.fact_scans.specs.About.{of_pending};

    ghost about = { λ p. is_of_user p.user };

    fn is_about(&self, subject: Subject) -> bool {
        subject.is_of_user(self.user)
    }

    ghost only = { λ p. of_pending p.user };
}

/// The first action that is pending for a user.
#[tactic(auto, using(crate::proofs::PendingLemmas::first_carried))]
pub fn first_pending<L: Ledger>(
    facts: &Facts<'_>,
    user: UserId,
    steps: &mut Steps<L>,
) -> Option<Action>
    ensures value { result ≡ first_pending user facts.now }
{
    fold_by(facts, &PendingFor { user }, Pending::nothing(), steps).first()
}

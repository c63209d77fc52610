ghost use Rattle.std.specs.Prelude.{◌≡◌};
ghost use Rattle.facts.specs.Secrets.{otp_of, recovery_of};

use fact_walks::{AccountHold, last_held_by_account};
use facts::{Fact, Facts, Hold, Secret, SecretKind, Subject, UserOtp, UserRecovery};
use login_base::{Steps, UserId};
use std::sync::ledger::Ledger;

/// Finds the changes of a user's secret of one kind.
#[derive(Clone, Copy, Debug)]
struct ChangeOf {
    user: UserId,
    kind: SecretKind,
}

impl Hold for ChangeOf {
    ghost use Rattle.facts.specs.Secrets.{change_of};
    ghost use Rattle.facts.specs.Subjects.{is_of_user};
    ghost use Rattle.fact_scans.specs.About.{of_change};

    type Held = Fact;

    ghost held = { λ c. change_of c.user c.kind };

    ghost about = { λ c. is_of_user c.user };

    fn of<'a>(&self, fact: &'a Fact) -> Option<&'a Fact> {
        match fact {
            Fact::SecretSet { user, kind, .. } if user.0 == self.user.0 && self.kind == *kind => {
                Some(fact)
            }
            _ => None,
        }
    }

    fn is_about(&self, subject: Subject) -> bool {
        subject.is_of_user(self.user)
    }

    ghost only = { λ c. of_change c.user c.kind };
}

impl AccountHold for ChangeOf {
    ghost use Rattle.facts.specs.Subjects.{subject_of};
    ghost use Rattle.fact_scans.specs.About.{of_none, of_change};

    ghost only_of_accounts = { λ p fact h. of_change p.user p.kind fact (of_none p.user (subject_of fact) h) };
}

/// The secret of one-time codes that a user has.
#[tactic(auto, unfolding(facts::specs::Secrets::otp_of))]
pub fn otp_of<'a, L: Ledger>(
    facts: &Facts<'a>,
    user: UserId,
    steps: &mut Steps<L>,
) -> Option<UserOtp<'a>>
    ensures value { result ≡ otp_of user facts.now }
{
    let kind = SecretKind::Otp;
    match last_held_by_account(facts, &ChangeOf { user, kind }, steps) {
        Some(
            Fact::SecretSet {
                serial,
                secret: Secret::Otp { secret },
                ..
            },
        ) => Some(UserOtp {
            serial: *serial,
            secret,
        }),
        _ => None,
    }
}

/// The recovery codes that a user has.
#[tactic(auto, unfolding(facts::specs::Secrets::recovery_of))]
pub fn recovery_of<'a, L: Ledger>(
    facts: &Facts<'a>,
    user: UserId,
    steps: &mut Steps<L>,
) -> Option<UserRecovery<'a>>
    ensures value { result ≡ recovery_of user facts.now }
{
    let kind = SecretKind::Recovery;
    match last_held_by_account(facts, &ChangeOf { user, kind }, steps) {
        Some(
            Fact::SecretSet {
                serial,
                secret: Secret::Recovery { digests },
                ..
            },
        ) => Some(UserRecovery {
            serial: *serial,
            digests,
        }),
        _ => None,
    }
}

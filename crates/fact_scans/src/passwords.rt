ghost use Rattle.std.specs.Prelude.{◌≡◌};
ghost use Rattle.facts.specs.Secrets.{kept_password, password_of};

use fact_walks::{AccountPick, Pick, last_by_account};
use facts::{Fact, Facts, Secret, SecretKind, Subject, UserPassword};
use login_base::{Steps, UserId};
use std::sync::ledger::Ledger;

/// Picks what a change of a user's password leaves.
#[derive(Clone, Copy, Debug)]
struct PasswordSet {
    user: UserId,
}

fn kept_password(serial: u64, secret: &Secret) -> Option<UserPassword>
    ensures { result ≡ kept_password serial secret.now }
{
    match secret {
        Secret::Password { hash } => Some(UserPassword {
            serial,
            hash: *hash,
        }),
        _ => None,
    }
}

impl Pick for PasswordSet {
    ghost use Rattle.facts.specs.Secrets.{password_set};
    ghost use Rattle.facts.specs.Subjects.{is_of_user};
    ghost use Rattle.fact_scans.specs.About.{of_password};

    type Out = Option<UserPassword>;

    ghost pick = { λ p. password_set p.user };

    ghost about = { λ p. is_of_user p.user };

    fn of(&self, fact: &Fact) -> Option<Option<UserPassword>> {
        match fact {
            Fact::SecretSet {
                user,
                kind: SecretKind::Password,
                serial,
                secret,
                ..
            } if user.0 == self.user.0 => Some(kept_password(*serial, secret)),
            _ => None,
        }
    }

    fn is_about(&self, subject: Subject) -> bool {
        subject.is_of_user(self.user)
    }

    ghost only = { λ p. of_password p.user };
}

impl AccountPick for PasswordSet {
    ghost use Rattle.facts.specs.Subjects.{subject_of};
    ghost use Rattle.fact_scans.specs.About.{of_none, of_password};

    ghost only_of_accounts = { λ p fact h. of_password p.user fact (of_none p.user (subject_of fact) h) };
}

/// The password that a user has.
#[tactic(auto, unfolding(facts::specs::Secrets::password_of))]
pub fn password_of<L: Ledger>(
    facts: &Facts<'_>,
    user: UserId,
    steps: &mut Steps<L>,
) -> Option<UserPassword>
    ensures value { result ≡ password_of user facts.now }
{
    match last_by_account(facts, &PasswordSet { user }, steps) {
        Some(kept) => kept,
        None => None,
    }
}

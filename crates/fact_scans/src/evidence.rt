ghost use Rattle.std.specs.Prelude.{◌≡◌};
ghost use Rattle.facts.specs.Evidence.{is_by, has_evidence};
ghost use Rattle.fact_scans.specs.Counting.{nothing, some_counts, with_kind, without_kind, is_own, is_foreign};

use fact_walks::{FoldAbout, fold_kept};
use facts::{Fact, Facts, Fold, SecretKind, Subject, fold_in};
use login_base::{Name, Steps, TabKey, UserId, same_id};
use std::sync::ledger::Ledger;

/// Which accepted posts of a user for an execution count in a tab, by the secrets that they rest
/// on.
#[derive(Clone, Copy, Debug, PartialEq, Eq)]
pub struct Counting {
    /// Some rests on no secret.
    pub lasting: bool,
    pub password: bool,
    pub otp: bool,
    pub recovery: bool,
}

impl Counting {
    fn nothing() -> Counting
        ensures { result ≡ nothing }
    {
        Counting {
            lasting: false,
            password: false,
            otp: false,
            recovery: false,
        }
    }

    fn some_counts(self) -> bool
        ensures { result ≡ some_counts self }
    {
        self.lasting || self.password || self.otp || self.recovery
    }

    fn with_kind(self, kind: Option<SecretKind>) -> Counting
        ensures { result ≡ with_kind self kind }
    {
        match kind {
            None => Counting {
                lasting: true,
                ..self
            },
            Some(SecretKind::Password) => Counting {
                password: true,
                ..self
            },
            Some(SecretKind::Otp) => Counting { otp: true, ..self },
            Some(SecretKind::Recovery) => Counting {
                recovery: true,
                ..self
            },
        }
    }

    fn without_kind(self, kind: SecretKind) -> Counting
        ensures { result ≡ without_kind self kind }
    {
        match kind {
            SecretKind::Password => Counting {
                password: false,
                ..self
            },
            SecretKind::Otp => Counting { otp: false, ..self },
            SecretKind::Recovery => Counting {
                recovery: false,
                ..self
            },
        }
    }
}

fn is_by(tab: TabKey, by: &Option<TabKey>) -> bool
    ensures { result ≡ is_by tab by.now }
{
    match by {
        Some(by) => same_id(&by.0, &tab.0),
        None => false,
    }
}

/// Carries what counts of a user's accepted posts for an execution in a tab.
#[derive(Clone, Copy)]
struct Evidence<'a> {
    tab: TabKey,
    user: UserId,
    id: &'a Name,
}

impl<'a> Evidence<'a> {
    fn is_own(&self, tab: &TabKey, user: UserId, execution: &Name) -> bool
        ensures { result ≡ is_own self.now.tab self.now.user self.now.id.now tab.now user execution.now }
    {
        same_id(&tab.0, &self.tab.0) && user.0 == self.user.0 && *execution == *self.id
    }

    fn is_foreign(&self, user: UserId, by: &Option<TabKey>) -> bool
        ensures { result ≡ is_foreign self.now.tab self.now.user user by.now }
    {
        user.0 == self.user.0 && !is_by(self.tab, by)
    }
}

impl<'a> Fold for Evidence<'a> {
    ghost use Rattle.fact_scans.specs.Counting.{counting_after};

    type Carried = Counting;

    ghost carry = { λ e. counting_after e.tab e.user e.id.now };

    fn after(&self, carried: &mut Counting, fact: &Fact) {
        match fact {
            Fact::Passed {
                tab,
                execution,
                user,
                kind,
                ..
            } if self.is_own(tab, *user, execution) => *carried = carried.with_kind(*kind),
            Fact::SecretSet { user, kind, by, .. } if self.is_foreign(*user, by) => {
                *carried = carried.without_kind(*kind);
            }
            _ => {}
        }
    }
}

impl<'a> FoldAbout for Evidence<'a> {
    ghost use Rattle.fact_scans.specs.About.{is_evidence, of_evidence};

    ghost about = { λ e. is_evidence e.tab e.user };

    fn is_about(&self, subject: Subject) -> bool {
        subject.is_login_in(self.tab, self.user) || subject.is_of_user(self.user)
    }

    ghost only = { λ e. of_evidence e.tab e.user e.id.now };
}

/// Whether an accepted post of the user for the execution counts in the tab: the user's secret on
/// which it rests wasn't changed since by anything but this tab. Facts before the first that names
/// the tab aren't read.
#[tactic(auto, using(crate::proofs::EvidenceLemmas::evidence_counted, crate::proofs::EvidenceLemmas::nothing_before, facts::proofs::PlacesLemmas::fold_append))]
pub fn has_evidence<L: Ledger>(
    facts: &Facts<'_>,
    tab: TabKey,
    user: UserId,
    id: &Name,
    steps: &mut Steps<L>,
) -> bool
    ensures value { result ≡ has_evidence tab user id.now facts.now }
{
    let of = Evidence { tab, user, id };
    let (chronicle, more) = facts.parts();
    let first = chronicle.first_known(tab.0.serial);
    let counting = fold_kept(chronicle, &of, first, Counting::nothing(), steps);
    fold_in(more, &of, counting).some_counts()
}

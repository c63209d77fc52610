ghost use Rattle.std.specs.Prelude.{◌≡◌};
ghost use Rattle.std.specs.Option.{option_copied};
ghost use Rattle.facts.specs.Realms.{last_version, realm_of, current_realm};

use fact_walks::last_held;
use facts::{
    Fact, Facts, Hold, Realm, RealmPut, Subject, Version, fold_in, last_held_in, newer_held,
};
use login_base::Steps;
use std::sync::ledger::Ledger;

/// Finds the realm that is put as a version.
#[derive(Clone, Copy, Debug)]
struct RealmPutAs {
    version: u64,
}

impl Hold for RealmPutAs {
    ghost use Rattle.facts.specs.Realms.{put_as};
    ghost use Rattle.facts.specs.Subjects.{is_realm};
    ghost use Rattle.fact_scans.specs.About.{of_version};

    type Held = Realm;

    ghost held = { λ p. put_as p.version };

    ghost about = { λ _. is_realm };

    fn of<'a>(&self, fact: &'a Fact) -> Option<&'a Realm> {
        match fact {
            Fact::RealmPut { version, realm } if *version == self.version => Some(realm),
            _ => None,
        }
    }

    fn is_about(&self, subject: Subject) -> bool {
        subject.is_realm()
    }

    ghost only = { λ p. of_version p.version };
}

/// The version of the realm in force, 0 where there is none.
#[tactic(auto, using(facts::proofs::InForce::last_version_more))]
pub fn last_version(facts: &Facts<'_>) -> u64
    ensures value { result ≡ last_version facts.now }
{
    let (chronicle, more) = facts.parts();
    fold_in(more, &Version, chronicle.last_version())
}

/// The realm in force: the last one that was put. No fact of the chronicle is read.
#[tactic(auto, using(facts::proofs::InForce::current_realm_more))]
pub fn current_realm<'a>(facts: &Facts<'a>) -> Option<&'a Realm>
    ensures value { option_copied result ≡ current_realm facts.now }
{
    let (chronicle, more) = facts.parts();
    newer_held(last_held_in(more, &RealmPut), chronicle.current_realm())
}

/// The realm of a version. Where that is the one in force, no fact of the chronicle is read.
#[tactic(auto, unfolding(facts::specs::Realms::realm_of), using(facts::proofs::InForce::realm_of_last))]
pub fn realm_of<'a, L: Ledger>(
    facts: &Facts<'a>,
    version: u64,
    steps: &mut Steps<L>,
) -> Option<&'a Realm>
    ensures value { option_copied result ≡ realm_of version facts.now }
{
    if version == last_version(facts) {
        return current_realm(facts);
    }
    last_held(facts, &RealmPutAs { version }, steps)
}

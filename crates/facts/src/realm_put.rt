use crate::fact::Fact;
use crate::hold::Hold;
use crate::subject::Subject;
use realm_data::Realm;

/// Finds the realm that is put.
#[derive(Clone, Copy, Debug)]
pub struct RealmPut;

impl Hold for RealmPut {
    ghost use Rattle.facts.specs.Realms.{realm_put};
    ghost use Rattle.facts.specs.Subjects.{is_realm};
    ghost use Rattle.facts.specs.About.{of_realm};

    type Held = Realm;

    ghost held = { λ _. realm_put };

    ghost about = { λ _. is_realm };

    fn of<'a>(&self, fact: &'a Fact) -> Option<&'a Realm> {
        match fact {
            Fact::RealmPut { realm, .. } => Some(realm),
            _ => None,
        }
    }

    fn is_about(&self, subject: Subject) -> bool {
        subject.is_realm()
    }

    ghost only = { λ _. of_realm };
}

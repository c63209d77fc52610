ghost use Rattle.std.specs.Prelude.{◌≡◌, Bool, false, Option, None};
ghost use Rattle.std.specs.Option.{option_copied, option_or};
ghost use Rattle.facts.specs.declared.fact.Fact.{Fact};
ghost use Rattle.facts.specs.declared.subject.Subject.{Subject};
ghost use Rattle.facts.specs.Places.{last_of};
ghost use Rattle.facts.specs.Subjects.{subject_of};

use crate::fact::Fact;
use crate::subject::Subject;

/// Something that a fact may hold.
pub trait Hold {
    type Held;

    /// What it finds in a fact.
    ghost held: { Self → Fact → Option Self.Held };

    /// The subjects of the facts that may hold it.
    ghost about: { Self → Subject → Bool };

    /// Lends it, where the fact holds it.
    fn of<'a>(&self, fact: &'a Fact) -> Option<&'a Self::Held>
        ensures value { option_copied result ≡ held self.now fact.now };

    /// Whether a fact of this subject may hold it.
    fn is_about(&self, subject: Subject) -> bool
        ensures value { result ≡ about self.now subject };

    /// A fact of another subject doesn't.
    ghost only: { (hold : Self) (fact : Fact) → about hold (subject_of fact) ≡ false → held hold fact ≡ None };
}

/// The newer one, where there is one.
pub fn newer_held<'a, T>(new: Option<&'a T>, old: Option<&'a T>) -> Option<&'a T>
    ensures value { option_copied result ≡ option_or (option_copied new.entry) (option_copied old.entry) }
{
    match new {
        Some(value) => Some(value),
        None => old,
    }
}

/// What the last of these facts holds that holds something.
pub fn last_held_in<'a, P: Hold>(more: &'a [Fact], hold: &P) -> Option<&'a P::Held>
    ensures value { option_copied result ≡ last_of (P.held hold.now) more.now }
{
    let mut found = None;
    for fact in more {
        found = newer_held(hold.of(fact), found);
    }
    found
}

ghost use Rattle.std.specs.Prelude.{◌≡◌, fold};
ghost use Rattle.facts.specs.declared.fact.Fact.{Fact};

use crate::fact::Fact;

/// Something that is carried from fact to fact.
pub trait Fold {
    type Carried: Copy;

    /// What is carried on after a fact.
    ghost carry: { Self → Self.Carried → Fact → Self.Carried };

    /// Carries it over a fact, in its place: most facts leave it as it is.
    fn after(&self, carried: &mut Self::Carried, fact: &Fact)
        ensures value { carried.new ≡ carry self.now carried.old fact.now };
}

/// What is carried to the end of these facts.
pub fn fold_in<F: Fold>(more: &[Fact], step: &F, start: F::Carried) -> F::Carried
    ensures value { result ≡ fold (F.carry step.now) start more.now }
{
    let mut carried = start;
    for fact in more {
        step.after(&mut carried, fact);
    }
    carried
}

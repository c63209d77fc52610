ghost use Rattle.std.specs.Prelude.{◌≡◌, None, IfSome};
ghost use Rattle.std.specs.List.{position};
ghost use Rattle.script_play.specs.Begun.{is_under, begun_under, is_begun, without};

use facts::Solved;

/// An ask that was begun under a handle, and waits to be settled.
#[derive(Debug, Drop)]
pub struct BegunAsk {
    /// From 1 to 64.
    pub handle: u64,
    pub solved: Solved,
}

/// Whether a handle is in use.
pub(crate) fn is_begun(begun: &[BegunAsk], handle: u64) -> bool
    ensures { result ≡ is_begun handle begun.now }
{
    begun.iter().any(|own| own.handle == handle)
}

fn place_of(begun: &[BegunAsk], handle: u64) -> Option<usize>
    ensures { result ≡ position (is_under handle) begun.now }
{
    begun.iter().position(|own| own.handle == handle)
}

/// Takes the ask that waits under a handle.
#[tactic(auto, using(crate::proofs::BegunLemmas::taken, crate::proofs::BegunLemmas::none_taken))]
pub(crate) fn take_begun(begun: &mut Vec<BegunAsk>, handle: u64) -> Option<BegunAsk>
    ensures found { result ≡ begun_under handle begun.old.items }
    ensures left { IfSome result (λ _. begun.new.items ≡ without handle begun.old.items) }
    ensures same { result ≡ None → begun.new.items ≡ begun.old.items }
{
    let place = place_of(begun.as_slice(), handle)?;
    Some(begun.remove(place))
}

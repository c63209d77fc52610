ghost use Rattle.std.specs.Prelude.{◌≡◌, ◌++◌, IfOk};

use facts::Fact;
use login_base::{Memory, Sequence};

/// Some facts, and more behind them.
pub fn joined(front: Sequence<Fact>, back: Sequence<Fact>) -> Result<Sequence<Fact>, Memory>
    ensures ok { IfOk result (λ facts. facts ≡ front ++ back) }
{
    let mut facts = front.into_vec();
    let mut back = back.into_vec();
    facts.append(&mut back)?;
    Ok(Sequence::from_vec(facts))
}

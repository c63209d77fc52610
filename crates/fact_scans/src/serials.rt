ghost use Rattle.std.specs.Prelude.{◌≡◌};
ghost use Rattle.facts.specs.Serials.{last_tab_serial, last_stored_serial};

use facts::{Facts, StoredSerial, TabSerial, fold_in};

/// The last used serial of the counter of roots, tabs and codes.
#[tactic(auto, using(facts::proofs::SerialLemmas::last_tab_serial_more))]
pub fn last_tab_serial(facts: &Facts<'_>) -> u64
    ensures value { result ≡ last_tab_serial facts.now }
{
    let (chronicle, more) = facts.parts();
    fold_in(more, &TabSerial, chronicle.last_tab_serial())
}

/// The last used serial of the counter of users, secrets, sessions and tokens.
#[tactic(auto, using(facts::proofs::SerialLemmas::last_stored_serial_more))]
pub fn last_stored_serial(facts: &Facts<'_>) -> u64
    ensures value { result ≡ last_stored_serial facts.now }
{
    let (chronicle, more) = facts.parts();
    fold_in(more, &StoredSerial, chronicle.last_stored_serial())
}

ghost use Rattle.std.specs.Prelude.{◌≡◌, IfOk};
ghost use Rattle.facts.specs.Spent.{codes_spent};

use fact_scans::codes_spent;
use facts::{Facts, UserRecovery};
use login_base::{Memory, Sequence, Steps};
use one_time::RecoveryList;
use std::alloc::Global;
use std::sync::ledger::Ledger;

/// The recovery codes of a user, with how many of them were used.
pub fn recovery_list<L: Ledger>(
    alloc: Global,
    facts: &Facts<'_>,
    kept: &UserRecovery<'_>,
    steps: &mut Steps<L>,
) -> Result<RecoveryList, Memory>
    ensures digests { IfOk result (λ list. list.digests ≡ kept.now.digests) }
    ensures spent { IfOk result (λ list. list.spent ≡ codes_spent kept.now.serial facts.now) }
{
    let mut digests = Vec::new(alloc);
    digests.extend_from_slice(kept.digests.digests())?;
    Ok(RecoveryList {
        digests: Sequence::from_vec(digests),
        spent: codes_spent(facts, kept.serial, steps),
    })
}

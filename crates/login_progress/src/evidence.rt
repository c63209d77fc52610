ghost use Rattle.std.specs.Prelude.{◌≡◌, [], ◌∷◌, ◌++◌, if◌then◌else◌, IfOk, OnOk};
ghost use Rattle.login_progress.specs.Evidence.{has_evidence_of, is_posted, is_passed, passed_of};

use fact_scans::has_evidence;
use facts::Facts;
use flow_tree::{Kind, Leaf};
use login_base::{Duplicate, Memory, Name, Sequence, Steps, TabKey, UserId};
use std::alloc::Global;
use std::sync::ledger::Ledger;

fn has_evidence_of<L: Ledger>(
    facts: &Facts<'_>,
    tab: TabKey,
    who: Option<UserId>,
    leaf: &Leaf,
    steps: &mut Steps<L>,
) -> bool
    ensures { result ≡ has_evidence_of facts.now tab who leaf.now }
{
    match who {
        Some(user) => has_evidence(facts, tab, user, &leaf.id, steps),
        None => false,
    }
}

/// Whether executions of this kind are passed by posts.
fn is_posted(kind: Kind) -> bool
    ensures { result ≡ is_posted kind }
{
    match kind {
        Kind::Allow | Kind::Deny | Kind::Cookie => false,
        Kind::Username | Kind::Password | Kind::Form | Kind::Otp | Kind::Recovery => true,
    }
}

/// Adds the leaf where it is passed.
fn add_passed<L: Ledger>(
    alloc: Global,
    facts: &Facts<'_>,
    tab: TabKey,
    who: Option<UserId>,
    leaf: &Leaf,
    passed: &mut Sequence<Name>,
    steps: &mut Steps<L>,
) -> Result<(), Memory>
    ensures { OnOk result (passed.new ≡
        passed.old ++ (if is_passed facts.now tab who leaf.now then leaf.now.id ∷ [] else [])) }
{
    if is_posted(leaf.kind) && has_evidence_of(facts, tab, who, leaf, steps) {
        passed.push(leaf.id.duplicate(alloc)?)
    } else {
        Ok(())
    }
}

/// The leaves that are passed in a tab, for a user who may be unknown.
#[tactic(auto, unfolding(crate::specs::Evidence::passed_of))]
pub(crate) fn passed_of<L: Ledger>(
    alloc: Global,
    facts: &Facts<'_>,
    tab: TabKey,
    who: Option<UserId>,
    leaves: &[Leaf],
    steps: &mut Steps<L>,
) -> Result<Sequence<Name>, Memory>
    ensures { IfOk result (λ passed. passed ≡ passed_of facts.now tab who leaves.now) }
{
    let mut passed = Sequence::new(alloc);
    for leaf in leaves {
        add_passed(alloc, facts, tab, who, leaf, &mut passed, steps)?;
    }
    Ok(passed)
}

ghost use Rattle.std.specs.Prelude.{◌≡◌, [], ◌∷◌, ◌++◌, ℕ, OnOk};
ghost use Rattle.flow_tree.specs.Places.{placed_at, places_at};
ghost use Rattle.flow_tree.specs.Leaves.{leaf_named, leaves_among};

use crate::exec::{Body, Exec, Kind};
use login_base::{Duplicate, Memory, Name, Sequence};
use std::alloc::Global;

/// An authenticator of a tree.
#[derive(Debug, Drop)]
pub struct Leaf {
    pub id: Name,
    pub kind: Kind,
}

fn add_leaf(alloc: Global, id: &Name, kind: Kind, leaves: &mut Sequence<Leaf>) -> Result<(), Memory>
    ensures { OnOk result (leaves.new ≡ leaves.old ++ leaf_named id.now kind ∷ []) }
{
    leaves.push(Leaf {
        id: id.duplicate(alloc)?,
        kind,
    })
}

/// Adds the authenticators of the execution, in document order.
#[cycle(gathering)]
fn add_leaves_in(alloc: Global, exec: &Exec, leaves: &mut Sequence<Leaf>) -> Result<(), Memory>
    ensures { (d : ℕ) → OnOk result (leaves.new ≡ leaves.old ++ leaves_among (placed_at d exec.now)) }
{
    match &exec.body {
        Body::Auth(kind) => add_leaf(alloc, &exec.id, *kind, leaves),
        Body::Cond(_) => Ok(()),
        Body::Sub(execs) => add_leaves(alloc, execs.as_slice(), leaves),
    }
}

/// Adds the authenticators of the executions, in document order.
#[cycle(gathering)]
pub fn add_leaves(alloc: Global, execs: &[Exec], leaves: &mut Sequence<Leaf>) -> Result<(), Memory>
    ensures { (d : ℕ) → OnOk result (leaves.new ≡ leaves.old ++ leaves_among (places_at d execs.now)) }
{
    for exec in execs {
        add_leaves_in(alloc, exec, leaves)?;
    }
    Ok(())
}

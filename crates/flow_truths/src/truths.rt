ghost use Rattle.std.specs.Prelude.{◌≡◌, ◌++◌, IfOk, OnOk};
ghost use Rattle.flow_truths.specs.Truths.{ids_where, truths_in, truths_among, truths};

use crate::leaf::{is_condition_true, is_held_by, is_leaf_true};
use crate::view::LoginView;
use conditions::configured;
use flow_tree::{Body, Exec, Tree, Truths};
use login_base::{Duplicate, Memory, Name, Sequence};
use std::alloc::Global;

/// Adds the id, where what has it is true.
fn add_where(
    alloc: Global,
    is_true: bool,
    id: &Name,
    held: &mut Sequence<Name>,
) -> Result<(), Memory>
    ensures { OnOk result (held.new ≡ held.old ++ ids_where is_true id.now) }
{
    if is_true {
        held.push(id.duplicate(alloc)?)
    } else {
        Ok(())
    }
}

/// Adds the ids that are true in the execution, where a cookie is true or isn't, and the user has
/// set up what stands beside it or hasn't.
#[cycle(telling)]
fn add_truths_in(
    alloc: Global,
    view: &LoginView,
    cookie: bool,
    beside: bool,
    exec: &Exec,
    held: &mut Sequence<Name>,
) -> Result<(), Memory>
    ensures { OnOk result (held.new ≡ held.old ++ truths_in view.now cookie beside exec.now) }
{
    match &exec.body {
        Body::Auth(kind) => {
            let is_true = is_leaf_true(view, cookie, &exec.id, *kind);
            add_where(alloc, is_true, &exec.id, held)
        }
        Body::Cond(cond) => {
            let is_true = is_condition_true(view, beside, cond);
            add_where(alloc, is_true, &exec.id, held)
        }
        Body::Sub(execs) => add_truths(alloc, view, cookie, execs.as_slice(), held),
    }
}

/// Adds the ids that are true in the flow of these executions.
#[cycle(telling)]
fn add_truths(
    alloc: Global,
    view: &LoginView,
    cookie: bool,
    execs: &[Exec],
    held: &mut Sequence<Name>,
) -> Result<(), Memory>
    ensures { OnOk result (held.new ≡ held.old ++ truths_among view.now cookie execs.now) }
{
    let beside = configured(view.account.as_ref(), execs);
    for exec in execs {
        add_truths_in(alloc, view, cookie, beside, exec, held)?;
    }
    Ok(())
}

/// The ids of the leaves and conditions of the tree that are true, in document order, disabled
/// ones too.
pub fn truths_of(alloc: Global, view: &LoginView, tree: &Tree) -> Result<Truths, Memory>
    ensures ok { IfOk result (λ t. t.held ≡ truths view.now tree.now) }
{
    let levels = tree.live_levels()?;
    let cookie = is_held_by(view, levels.as_slice());
    let mut held = Sequence::new(alloc);
    add_truths(alloc, view, cookie, tree.execs(), &mut held)?;
    Ok(Truths { held })
}

ghost use Rattle.std.specs.Prelude.{◌≡◌, [], ◌∷◌, ◌++◌, if◌then◌else◌, OnOk, map};
ghost use Rattle.flow_tree.specs.Flow.{has, judged, flow_needs, first_needs, offered_needs};

use crate::exec::{Body, Exec};
use crate::judge::{has, judge, tally};
use login_base::{Duplicate, Memory, Name, Sequence};
use std::alloc::Global;

/// Adds what the execution needs, where these ids are true.
#[cycle(needing)]
fn add_needs(
    alloc: Global,
    exec: &Exec,
    held: &[Name],
    needs: &mut Sequence<Name>,
) -> Result<(), Memory>
    ensures { OnOk result (needs.new ≡ needs.old ++ (judged held.now exec.now).needs) }
{
    match &exec.body {
        Body::Auth(_) => add_leaf(alloc, &exec.id, held, needs),
        Body::Cond(_) => Ok(()),
        Body::Sub(execs) => add_flow_needs(alloc, execs.as_slice(), held, needs),
    }
}

/// Adds what the flow of these executions needs.
#[cycle(needing)]
pub fn add_flow_needs(
    alloc: Global,
    execs: &[Exec],
    held: &[Name],
    needs: &mut Sequence<Name>,
) -> Result<(), Memory>
    ensures { OnOk result (needs.new ≡ needs.old ++ flow_needs held.now execs.now) }
{
    let all = tally(execs, held);
    if all.holds() {
        return Ok(());
    }
    if all.acts {
        add_first_needs(alloc, execs, held, needs)
    } else {
        add_offered_needs(alloc, execs, held, needs)
    }
}

/// Adds what the first execution needs that acts and doesn't hold.
#[cycle(needing)]
fn add_first_needs(
    alloc: Global,
    execs: &[Exec],
    held: &[Name],
    needs: &mut Sequence<Name>,
) -> Result<(), Memory>
    ensures { OnOk result (needs.new ≡ needs.old ++ first_needs (map (judged held.now) execs.now)) }
{
    for exec in execs {
        let verdict = judge(exec, held);
        if verdict.acts && !verdict.holds {
            return add_needs(alloc, exec, held, needs);
        }
    }
    Ok(())
}

/// Adds what the alternatives need, in order.
#[cycle(needing)]
fn add_offered_needs(
    alloc: Global,
    execs: &[Exec],
    held: &[Name],
    needs: &mut Sequence<Name>,
) -> Result<(), Memory>
    ensures { OnOk result (needs.new ≡ needs.old ++ offered_needs (map (judged held.now) execs.now)) }
{
    for exec in execs {
        if judge(exec, held).offers {
            add_needs(alloc, exec, held, needs)?;
        }
    }
    Ok(())
}

/// A leaf that doesn't hold needs itself.
fn add_leaf(
    alloc: Global,
    id: &Name,
    held: &[Name],
    needs: &mut Sequence<Name>,
) -> Result<(), Memory>
    ensures { OnOk result (needs.new ≡ needs.old ++ (if has held.now id.now then [] else id.now ∷ [])) }
{
    if has(held, id) {
        return Ok(());
    }
    needs.push(id.duplicate(alloc)?)
}

ghost use Rattle.std.specs.Prelude.{◌≡◌};
ghost use Rattle.flow_tree.specs.Flow.{has, judged, judgements};
ghost use Rattle.flow_tree.specs.Tally.{tally_of};

use crate::exec::{Body, Exec};
use crate::verdict::{Tally, Verdict};
use login_base::Name;

/// Whether the id is one of these.
pub fn has(held: &[Name], id: &Name) -> bool
    ensures { result ≡ has held.now id.now }
{
    held.contains(id)
}

/// What the execution is to its flow, where these ids are true.
#[cycle(judging)]
pub fn judge(exec: &Exec, held: &[Name]) -> Verdict
    ensures { result ≡ (judged held.now exec.now).verdict }
{
    match &exec.body {
        Body::Auth(_) => Verdict::of_leaf(exec.requirement, has(held, &exec.id)),
        Body::Cond(_) => Verdict::of_condition(exec.requirement, has(held, &exec.id)),
        Body::Sub(execs) => Verdict::of_flow(exec.requirement, tally(execs.as_slice(), held)),
    }
}

/// What the executions of a flow are together, where these ids are true.
#[cycle(judging)]
pub fn tally(execs: &[Exec], held: &[Name]) -> Tally
    ensures { result ≡ tally_of (judgements held.now execs.now) }
{
    let mut all = Tally::empty();
    for exec in execs {
        all = all.with(judge(exec, held));
    }
    all
}

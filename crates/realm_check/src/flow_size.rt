ghost use Rattle.std.specs.Prelude.{◌≡◌, ℕ, length};
ghost use Rattle.flow_tree.specs.Places.{placed_at, places_at};
ghost use Rattle.realm_check.specs.Check.{capped, depths, greatest, execution_count, flow_depth};

use flow_tree::{Body, Exec, Tree};

#[cycle(counting)]
fn count_in(exec: &Exec) -> u64
    ensures { (d : ℕ) → result ≡ capped (length (placed_at d exec.now)) }
{
    match &exec.body {
        Body::Auth(_) => 1,
        Body::Cond(_) => 1,
        Body::Sub(execs) => count_among(execs.as_slice()).saturating_add(1),
    }
}

#[cycle(counting)]
fn count_among(execs: &[Exec]) -> u64
    ensures { (d : ℕ) → result ≡ capped (length (places_at d execs.now)) }
{
    let mut count = 0u64;
    for exec in execs {
        count = count.saturating_add(count_in(exec));
    }
    count
}

/// The greatest depth of an execution that stands at a depth, and of those in it.
#[cycle(measuring)]
fn depth_in(exec: &Exec, depth: u64) -> u64
    ensures { (d : ℕ) → depth ≡ capped d → result ≡ capped (greatest (depths (placed_at d exec.now))) }
{
    match &exec.body {
        Body::Auth(_) => depth,
        Body::Cond(_) => depth,
        Body::Sub(execs) => depth_among(execs.as_slice(), depth.saturating_add(1)).max(depth),
    }
}

#[cycle(measuring)]
fn depth_among(execs: &[Exec], depth: u64) -> u64
    ensures { (d : ℕ) → depth ≡ capped d → result ≡ capped (greatest (depths (places_at d execs.now))) }
{
    let mut deepest = 0u64;
    for exec in execs {
        deepest = deepest.max(depth_in(exec, depth));
    }
    deepest
}

/// How many executions a flow has, those in subflows too.
pub fn execution_count(flow: &Tree) -> u64
    ensures value { result ≡ execution_count flow.now }
{
    count_among(flow.execs())
}

/// How deep the deepest execution of a flow stands, 0 where there is none.
pub fn flow_depth(flow: &Tree) -> u64
    ensures value { result ≡ flow_depth flow.now }
{
    depth_among(flow.execs(), 1)
}

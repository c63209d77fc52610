ghost use Rattle.std.specs.Prelude.{◌≡◌, ℕ, List, ◌&&◌};
ghost use Rattle.std.specs.List.{list_any};
ghost use Rattle.flow_tree.specs.Flow.{is_conditional, stands, judged, level_holds};

use crate::exec::{Body, Exec};
use crate::judge::judge;
use login_base::Name;

/// Whether the execution is an enabled condition of the level.
fn tests(exec: &Exec, level: u32) -> bool
    ensures { (t : List (List ℕ)) → result ≡ (judged t exec.now).tests level }
{
    match &exec.body {
        Body::Cond(cond) => exec.requirement.is_required() && cond.is_level(level),
        Body::Auth(_) => false,
        Body::Sub(_) => false,
    }
}

/// Whether one of the executions is an enabled condition of the level.
fn some_tests(execs: &[Exec], level: u32) -> bool
    ensures { (t : List (List ℕ)) → result ≡ list_any (λ e. (judged t e).tests level) execs.now }
{
    for exec in execs {
        if tests(exec, level) {
            return true;
        }
    }
    false
}

/// Whether the subflow is conditional, acts and holds, and has an enabled condition of the level.
fn is_reached_by(flow: &Exec, execs: &[Exec], level: u32, held: &[Name]) -> bool
    ensures { result ≡ (is_conditional flow.now.requirement
        && (stands (judged held.now flow.now).verdict
        && list_any (λ e. (judged held.now e).tests level) execs.now)) }
{
    if !flow.requirement.is_conditional() {
        return false;
    }
    judge(flow, held).stands() && some_tests(execs, level)
}

/// Whether the level has a live condition in the execution whose subflow acts and holds.
#[cycle(reaching)]
fn reaches(exec: &Exec, level: u32, held: &[Name]) -> bool
    ensures { result ≡ (judged held.now exec.now).reaches level }
{
    match &exec.body {
        Body::Sub(execs) => {
            let execs = execs.as_slice();
            !exec.requirement.is_disabled()
                && (is_reached_by(exec, execs, level, held) || some_reaches(execs, level, held))
        }
        Body::Auth(_) => false,
        Body::Cond(_) => false,
    }
}

/// Whether the level has a live condition in the executions whose subflow acts and holds.
#[cycle(reaching)]
pub fn some_reaches(execs: &[Exec], level: u32, held: &[Name]) -> bool
    ensures { result ≡ level_holds held.now level execs.now }
{
    for exec in execs {
        if reaches(exec, level, held) {
            return true;
        }
    }
    false
}

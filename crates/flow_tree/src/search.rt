ghost use Rattle.std.specs.Prelude.{◌≡◌, ◌+◌, ◌<◌, None, is_some, length, take, MatchOption};
ghost use Rattle.flow_tree.specs.Faults.{breaks, first_breaking, repeats_level, is_flow, has_level_of};
ghost use Rattle.flow_tree.specs.Places.{shape_in, place_of, placed_at, places_at};
ghost use Rattle.flow_tree.specs.Standing.{depth_of, before_of, IsFirstBroken};
ghost use Rattle.flow_tree.specs.declared.exec.Body.{out-Body};

use crate::before::{Before, Sought, is_condition};
use crate::exec::{Body, Cond, Exec};
use crate::fault::TreeRule;
use login_base::Name;
use sqlite_items::Items;

fn is_flow(exec: &Exec) -> bool
    ensures { result ≡ is_flow (shape_in (out-Body exec.now.body)) }
{
    matches!(&exec.body, Body::Sub(_))
}

/// Whether one of these is a condition of the same level.
fn has_level_of(before: &Before<'_>, cond: &Cond) -> bool
    ensures { result ≡ has_level_of (before_of before.now) cond.now }
{
    match cond {
        Cond::Role { role: _, negate: _ } | Cond::Configured => false,
        Cond::Level { level, age: _ } => before.has(&Sought::Level(*level)),
    }
}

fn repeats_level(before: &Before<'_>, exec: &Exec) -> bool
    ensures { result ≡ repeats_level (before_of before.now) (shape_in (out-Body exec.now.body)) }
{
    match &exec.body {
        Body::Cond(cond) => has_level_of(before, cond),
        Body::Auth(_) | Body::Sub(_) => false,
    }
}

/// Whether the execution itself breaks the rule.
fn breaks(rule: TreeRule, exec: &Exec, before: &Before<'_>) -> bool
    ensures { result ≡ breaks rule (before_of before.now) (place_of (depth_of before.now) exec.now) }
{
    match rule {
        TreeRule::DoubleId => before.has(&Sought::Id(&exec.id)),
        TreeRule::ConditionalLeaf => exec.requirement.is_conditional() && !is_flow(exec),
        TreeRule::TooDeep => before.is_deeper(8),
        TreeRule::TooMany => before.left_of(64) == 0,
        TreeRule::DoubleLevel => repeats_level(before, exec),
        TreeRule::CondRequirement => {
            is_condition(exec)
                && !(exec.requirement.is_required() || exec.requirement.is_disabled())
        }
    }
}

/// Whether the execution or one in it breaks the rule.
#[cycle(searching)]
fn is_broken_in<'a>(rule: TreeRule, exec: &'a Exec, before: &'a Before<'a>) -> bool
    ensures { result ≡ is_some (first_breaking rule (before_of before.now)
        (placed_at (depth_of before.now) exec.now)) }
{
    if breaks(rule, exec, before) {
        return true;
    }
    match &exec.body {
        Body::Auth(_) => false,
        Body::Cond(_) => false,
        Body::Sub(execs) => {
            let inside = Before::Flow {
                before,
                id: &exec.id,
                requirement: exec.requirement,
            };
            first_broken(rule, execs.as_slice(), &inside).is_some()
        }
    }
}

/// The index of the first execution that breaks the rule or has one in it that does.
#[cycle(searching)]
pub fn first_broken<'a>(rule: TreeRule, execs: &'a [Exec], before: &'a Before<'a>) -> Option<usize>
    ensures { MatchOption result
        (first_breaking rule (before_of before.now) (places_at (depth_of before.now) execs.now) ≡ None)
        (λ i. IsFirstBroken rule before.now execs.now i) }
{
    for i in 0..execs.len() {
        let (front, _) = execs.split_at(i);
        if is_broken_in(
            rule,
            &execs[i],
            &Before::All {
                before,
                execs: front,
            },
        ) {
            return Some(i);
        }
    }
    None
}

/// The id of the first execution that breaks the rule: this one, or one in it.
#[cycle(taking)]
fn take_in(rule: TreeRule, exec: Exec, before: &Before<'_>) -> Option<Name>
    ensures { result ≡ first_breaking rule (before_of before.now) (placed_at (depth_of before.now) exec) }
{
    let broken = breaks(rule, &exec, before);
    let Exec {
        id,
        requirement,
        body,
    } = exec;
    if broken {
        return Some(id);
    }
    match body {
        Body::Auth(_) => None,
        Body::Cond(_) => None,
        Body::Sub(execs) => take_first(
            rule,
            execs,
            &Before::Flow {
                before: &*before,
                id: &id,
                requirement,
            },
        ),
    }
}

/// The id of the first execution that breaks the rule, moved out of the executions.
#[cycle(taking)]
pub fn take_first(rule: TreeRule, execs: Items<Exec>, before: &Before<'_>) -> Option<Name>
    ensures { result ≡ first_breaking rule (before_of before.now) (places_at (depth_of before.now) execs) }
{
    let index = first_broken(rule, execs.as_slice(), &*before)?;
    let mut execs = execs;
    let exec = execs.remove(index);
    let (front, _) = execs.as_slice().split_at(index);
    take_in(
        rule,
        exec,
        &Before::All {
            before: &*before,
            execs: front,
        },
    )
}

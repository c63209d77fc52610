ghost use Rattle.std.specs.Prelude.{◌≡◌, ◌++◌, option_to_list, OnOk};
ghost use Rattle.flow_tree.specs.Levels.{levelled, lent_by, lent_level, lent_levels, level_of, age_among};

use crate::exec::{Body, Cond, Exec, Requirement};
use login_base::{Memory, Sequence};

/// A level whose condition is live, and its maximum age in seconds.
#[derive(Clone, Copy, Debug, PartialEq, Eq)]
pub struct LiveLevel {
    pub level: u32,
    pub age: u64,
}

fn level_of(cond: &Cond) -> Option<LiveLevel>
    ensures { result ≡ level_of cond.now }
{
    match cond {
        Cond::Level { level, age } => Some(LiveLevel {
            level: *level,
            age: *age,
        }),
        Cond::Role { role: _, negate: _ } | Cond::Configured => None,
    }
}

/// The level that an enabled condition lends to a conditional flow.
fn lent_level(requirement: Requirement, own: Requirement, cond: &Cond) -> Option<LiveLevel>
    ensures { result ≡ lent_level requirement own cond.now }
{
    if requirement.is_conditional() && own.is_required() {
        level_of(cond)
    } else {
        None
    }
}

fn age_of(lent: Option<LiveLevel>, level: u32) -> Option<u64>
    ensures { result ≡ age_among level (option_to_list lent) }
{
    match lent {
        Some(own) if own.level == level => Some(own.age),
        _ => None,
    }
}

/// The age of the level's first condition that a flow of this requirement has of the execution.
#[cycle(aging)]
fn lent_age(requirement: Requirement, exec: &Exec, level: u32) -> Option<u64>
    ensures { result ≡ age_among level (lent_by requirement (levelled exec.now)) }
{
    match &exec.body {
        Body::Auth(_) => None,
        Body::Cond(cond) => age_of(lent_level(requirement, exec.requirement, cond), level),
        Body::Sub(execs) => {
            if exec.requirement.is_disabled() {
                return None;
            }
            first_age(exec.requirement, execs.as_slice(), level)
        }
    }
}

/// The age of the level's first condition that a flow of this requirement has of its executions.
#[cycle(aging)]
pub fn first_age(requirement: Requirement, execs: &[Exec], level: u32) -> Option<u64>
    ensures { result ≡ age_among level (lent_levels requirement execs.now) }
{
    for exec in execs {
        if let Some(age) = lent_age(requirement, exec, level) {
            return Some(age);
        }
    }
    None
}

fn add_level(lent: Option<LiveLevel>, levels: &mut Sequence<LiveLevel>) -> Result<(), Memory>
    ensures { OnOk result (levels.new ≡ levels.old ++ option_to_list lent) }
{
    match lent {
        Some(own) => levels.push(own),
        None => Ok(()),
    }
}

/// Adds the live levels that a flow of this requirement has of the execution.
#[cycle(listing)]
fn add_lent(
    requirement: Requirement,
    exec: &Exec,
    levels: &mut Sequence<LiveLevel>,
) -> Result<(), Memory>
    ensures { OnOk result (levels.new ≡ levels.old ++ lent_by requirement (levelled exec.now)) }
{
    match &exec.body {
        Body::Auth(_) => Ok(()),
        Body::Cond(cond) => add_level(lent_level(requirement, exec.requirement, cond), levels),
        Body::Sub(execs) => {
            if exec.requirement.is_disabled() {
                return Ok(());
            }
            add_levels(exec.requirement, execs.as_slice(), levels)
        }
    }
}

/// Adds the live levels that a flow of this requirement has of its executions.
#[cycle(listing)]
pub fn add_levels(
    requirement: Requirement,
    execs: &[Exec],
    levels: &mut Sequence<LiveLevel>,
) -> Result<(), Memory>
    ensures { OnOk result (levels.new ≡ levels.old ++ lent_levels requirement execs.now) }
{
    for exec in execs {
        add_lent(requirement, exec, levels)?;
    }
    Ok(())
}

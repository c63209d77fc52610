ghost use Rattle.std.specs.Prelude.{◌≡◌, ℕ, false, List, ◌-◌, nat_lt, length};
ghost use Rattle.std.specs.List.{list_any};
ghost use Rattle.flow_tree.specs.Places.{shape_in, place_of, placed_at, places_at, is_of_kind};
ghost use Rattle.flow_tree.specs.Faults.{is_of_level, is_condition};
ghost use Rattle.flow_tree.specs.declared.exec.Body.{out-Body};
ghost use Rattle.flow_tree.specs.Standing.{depth_of, before_of, is_sought, is_named};
ghost use Rattle.flow_tree.specs.declared.before.Sought.TheVariants.{Unnamed};

use crate::exec::{Body, Exec, Kind, Requirement};
use crate::names::has_own_names;
use crate::range::is_level_in_range;
use login_base::{Name, is_name};

/// What stands before an execution in document order.
#[derive(Clone, Copy)]
pub enum Before<'a> {
    Nothing,
    /// These, then a subflow, of which the execution is the first.
    Flow {
        before: &'a Before<'a>,
        id: &'a Name,
        requirement: Requirement,
    },
    /// These, then executions of the same flow with all that stands in them.
    All {
        before: &'a Before<'a>,
        execs: &'a [Exec],
    },
}

/// What is looked for among executions.
#[derive(Clone, Copy)]
pub enum Sought<'a> {
    /// An execution of this id.
    Id(&'a Name),
    /// A condition of this level.
    Level(u32),
    /// An authenticator of this kind.
    Kind(Kind),
    /// Any condition.
    Condition,
    /// A condition of a level that is out of range, or has an age that is.
    OutOfRange,
    /// An execution whose id or role is no name.
    Unnamed,
}

impl Before<'_> {
    /// Whether one of them has what is sought.
    pub fn has(&self, sought: &Sought<'_>) -> bool
        ensures { result ≡ list_any (is_sought sought.now) (before_of self.now) }
    {
        match self {
            Before::Nothing => false,
            Before::Flow {
                before,
                id,
                requirement: _,
            } => before.has(sought) || is_named(id, sought),
            Before::All { before, execs } => before.has(sought) || is_among(execs, sought),
        }
    }

    /// What is left of a number when they are taken from it.
    pub fn left_of(&self, number: usize) -> usize
        ensures { result ≡ number - length (before_of self.now) }
    {
        match self {
            Before::Nothing => number,
            Before::Flow {
                before,
                id: _,
                requirement: _,
            } => before.left_of(number).saturating_sub(1),
            Before::All { before, execs } => left_after(execs, before.left_of(number)),
        }
    }

    /// Whether an execution after them stands deeper than this.
    pub fn is_deeper(&self, than: u32) -> bool
        ensures { result ≡ nat_lt than (depth_of self.now) }
    {
        match self {
            Before::Nothing => than == 0,
            Before::Flow {
                before,
                id: _,
                requirement: _,
            } => than == 0 || before.is_deeper(than - 1),
            Before::All { before, execs: _ } => before.is_deeper(than),
        }
    }
}

fn is_named(id: &Name, sought: &Sought<'_>) -> bool
    ensures { result ≡ is_named sought.now id.now }
{
    match sought {
        Sought::Id(name) => *id == **name,
        Sought::Level(_) | Sought::Kind(_) | Sought::Condition | Sought::OutOfRange => false,
        Sought::Unnamed => !is_name(id.as_bytes()),
    }
}

fn is_of_level(exec: &Exec, level: u32) -> bool
    ensures { result ≡ is_of_level level (shape_in (out-Body exec.now.body)) }
{
    match &exec.body {
        Body::Cond(cond) => cond.is_level(level),
        Body::Auth(_) | Body::Sub(_) => false,
    }
}

fn is_of_kind(exec: &Exec, kind: Kind) -> bool
    ensures { result ≡ is_of_kind kind (shape_in (out-Body exec.now.body)) }
{
    match &exec.body {
        Body::Auth(own) => *own == kind,
        Body::Cond(_) | Body::Sub(_) => false,
    }
}

pub fn is_condition(exec: &Exec) -> bool
    ensures { result ≡ is_condition (shape_in (out-Body exec.now.body)) }
{
    matches!(&exec.body, Body::Cond(_))
}

/// Whether the execution itself has what is sought.
fn is_itself(exec: &Exec, sought: &Sought<'_>) -> bool
    ensures value { (d : ℕ) → result ≡ is_sought sought.now (place_of d exec.now) }
    ensures names { sought.now ≡ Unnamed → result ≡ false }
{
    match sought {
        Sought::Id(name) => exec.id == **name,
        Sought::Level(level) => is_of_level(exec, *level),
        Sought::Kind(kind) => is_of_kind(exec, *kind),
        Sought::Condition => is_condition(exec),
        Sought::OutOfRange => !is_level_in_range(exec),
        Sought::Unnamed => !has_own_names(exec),
    }
}

/// Whether the execution or one in it has what is sought.
#[cycle(seeking)]
fn is_in(exec: &Exec, sought: &Sought<'_>) -> bool
    ensures value { (d : ℕ) → result ≡ list_any (is_sought sought.now) (placed_at d exec.now) }
    ensures names { sought.now ≡ Unnamed → result ≡ false }
{
    if is_itself(exec, sought) {
        return true;
    }
    match &exec.body {
        Body::Auth(_) => false,
        Body::Cond(_) => false,
        Body::Sub(execs) => is_among(execs.as_slice(), sought),
    }
}

/// Whether one of the executions, or one in them, has what is sought.
#[cycle(seeking)]
pub fn is_among(execs: &[Exec], sought: &Sought<'_>) -> bool
    ensures value { (d : ℕ) → result ≡ list_any (is_sought sought.now) (places_at d execs.now) }
    ensures names { sought.now ≡ Unnamed → result ≡ false }
{
    for exec in execs {
        if is_in(exec, sought) {
            return true;
        }
    }
    false
}

/// What is left of a number when the execution and those in it are taken from it.
#[cycle(counting)]
fn left_after_one(exec: &Exec, number: usize) -> usize
    ensures { (d : ℕ) → result ≡ number - length (placed_at d exec.now) }
{
    if number == 0 {
        return 0;
    }
    match &exec.body {
        Body::Auth(_) => number - 1,
        Body::Cond(_) => number - 1,
        Body::Sub(execs) => left_after(execs.as_slice(), number - 1),
    }
}

/// What is left of a number when the executions and those in them are taken from it.
#[cycle(counting)]
pub fn left_after(execs: &[Exec], number: usize) -> usize
    ensures { (d : ℕ) → result ≡ number - length (places_at d execs.now) }
{
    let mut left = number;
    for exec in execs {
        left = left_after_one(exec, left);
    }
    left
}

ghost use Rattle.std.specs.Prelude.{◌≡◌, IfOk};

use crate::exec::{Body, Cond, Exec};
use login_base::{Duplicate, Memory};
use sqlite_items::Items;
use std::alloc::Global;

impl Duplicate for Cond {
    fn duplicate(&self, alloc: Global) -> Result<Cond, Memory> {
        match self {
            Cond::Role { role, negate } => Ok(Cond::Role {
                role: role.duplicate(alloc)?,
                negate: *negate,
            }),
            Cond::Configured => Ok(Cond::Configured),
            Cond::Level { level, age } => Ok(Cond::Level {
                level: *level,
                age: *age,
            }),
        }
    }
}

#[cycle(copying)]
fn copy_exec(alloc: Global, exec: &Exec) -> Result<Exec, Memory>
    ensures { IfOk result (λ e. e ≡ exec.now) }
{
    Ok(Exec {
        id: exec.id.duplicate(alloc)?,
        requirement: exec.requirement,
        body: copy_body(alloc, &exec.body)?,
    })
}

#[cycle(copying)]
fn copy_body(alloc: Global, body: &Body) -> Result<Body, Memory>
    ensures { IfOk result (λ b. b ≡ body.now) }
{
    match body {
        Body::Auth(kind) => Ok(Body::Auth(*kind)),
        Body::Cond(cond) => Ok(Body::Cond(cond.duplicate(alloc)?)),
        Body::Sub(execs) => Ok(Body::Sub(copy_execs(alloc, execs.as_slice())?)),
    }
}

/// Copies of the executions, with all that stands in them.
#[cycle(copying)]
pub fn copy_execs(alloc: Global, execs: &[Exec]) -> Result<Items<Exec>, Memory>
    ensures { IfOk result (λ es. es ≡ execs.now) }
{
    let mut copies = Items::new(alloc);
    for exec in execs {
        copies.push(copy_exec(alloc, exec)?)?;
    }
    Ok(copies)
}

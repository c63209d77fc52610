ghost use Rattle.std.specs.Prelude.{◌≡◌, ◌↔◌, IsTrue};

use crate::exec::{Body, Cond, Exec, Kind, Requirement};
use login_base::Name;

fn same_kind(a: Kind, b: Kind) -> bool
    ensures { IsTrue result ↔ (a ≡ b) }
{
    a == b
}

fn same_requirement(a: Requirement, b: Requirement) -> bool
    ensures { IsTrue result ↔ (a ≡ b) }
{
    a == b
}

fn same_name(a: &Name, b: &Name) -> bool
    ensures { IsTrue result ↔ (a.now ≡ b.now) }
{
    a.as_bytes() == b.as_bytes()
}

fn same_cond(a: &Cond, b: &Cond) -> bool
    ensures { IsTrue result ↔ (a.now ≡ b.now) }
{
    a == b
}

#[cycle(comparing)]
fn same_exec(a: &Exec, b: &Exec) -> bool
    ensures { IsTrue result ↔ (a.now ≡ b.now) }
{
    same_name(&a.id, &b.id)
        && same_requirement(a.requirement, b.requirement)
        && same_body(&a.body, &b.body)
}

#[cycle(comparing)]
fn same_body(a: &Body, b: &Body) -> bool
    ensures { IsTrue result ↔ (a.now ≡ b.now) }
{
    match (a, b) {
        (Body::Auth(kind), Body::Auth(other)) => same_kind(*kind, *other),
        (Body::Cond(cond), Body::Cond(other)) => same_cond(cond, other),
        (Body::Sub(execs), Body::Sub(others)) => same_execs(execs.as_slice(), others.as_slice()),
        _ => false,
    }
}

/// Whether the executions are equal one by one, with all that stands in them.
#[cycle(comparing)]
pub fn same_execs(a: &[Exec], b: &[Exec]) -> bool
    ensures { IsTrue result ↔ (a.now ≡ b.now) }
{
    if a.len() != b.len() {
        return false;
    }
    for i in 0..a.len() {
        if !same_exec(&a[i], &b[i]) {
            return false;
        }
    }
    true
}

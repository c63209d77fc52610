ghost use Rattle.std.specs.Prelude.{◌≡◌, ◌&&◌, IsTrue};
ghost use Rattle.flow_tree.specs.declared.exec.Body.{out-Body};
ghost use Rattle.flow_tree.specs.Names.{is_role_named};
ghost use Rattle.flow_tree.specs.Places.{shape_in};
ghost use Rattle.login_base.specs.Names.{is_name};

use crate::exec::{Body, Cond, Exec};
use login_base::is_name;

fn is_role_named(exec: &Exec) -> bool
    ensures value { result ≡ is_role_named (shape_in (out-Body exec.now.body)) }
    ensures names { IsTrue result }
{
    match &exec.body {
        Body::Cond(Cond::Role { role, negate: _ }) => is_name(role.as_bytes()),
        Body::Cond(Cond::Configured | Cond::Level { level: _, age: _ }) => true,
        Body::Auth(_) | Body::Sub(_) => true,
    }
}

/// Whether the execution's own id is a name, and its role, where it is a condition of one.
pub fn has_own_names(exec: &Exec) -> bool
    ensures value { result ≡ (is_name exec.now.id && is_role_named (shape_in (out-Body exec.now.body))) }
    ensures names { IsTrue result }
{
    is_name(exec.id.as_bytes()) && is_role_named(exec)
}

ghost use Rattle.std.specs.Prelude.{◌≡◌};
ghost use Rattle.flow_tree.specs.declared.exec.Body.{out-Body};
ghost use Rattle.flow_tree.specs.Places.{shape_in};
ghost use Rattle.flow_tree.specs.Ranges.{is_level_in_range};

use crate::exec::{Body, Cond, Exec};

/// Whether the level is 1 to 1,000 and its age at most a year, where the execution is a condition
/// of a level.
pub fn is_level_in_range(exec: &Exec) -> bool
    ensures { result ≡ is_level_in_range (shape_in (out-Body exec.now.body)) }
{
    match &exec.body {
        Body::Cond(Cond::Level { level, age }) => {
            *level >= 1 && *level <= 1_000 && *age <= 31_536_000
        }
        Body::Cond(Cond::Role { role: _, negate: _ } | Cond::Configured) => true,
        Body::Auth(_) | Body::Sub(_) => true,
    }
}

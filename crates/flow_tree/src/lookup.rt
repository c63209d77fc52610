ghost use Rattle.std.specs.Prelude.{◌≡◌, ℕ};
ghost use Rattle.flow_tree.specs.Places.{placed_at, places_at, kind_among};

use crate::exec::{Body, Exec, Kind};
use login_base::Name;

/// The kind of the first authenticator of this id in the execution.
#[cycle(looking)]
fn kind_in(exec: &Exec, id: &Name) -> Option<Kind>
    ensures { (d : ℕ) → result ≡ kind_among id.now (placed_at d exec.now) }
{
    match &exec.body {
        Body::Auth(kind) => { if exec.id == *id { Some(*kind) } else { None } }
        Body::Cond(_) => None,
        Body::Sub(execs) => kind_among(execs.as_slice(), id),
    }
}

/// The kind of the first authenticator of this id in the executions.
#[cycle(looking)]
pub fn kind_among(execs: &[Exec], id: &Name) -> Option<Kind>
    ensures { (d : ℕ) → result ≡ kind_among id.now (places_at d execs.now) }
{
    for exec in execs {
        if let Some(kind) = kind_in(exec, id) {
            return Some(kind);
        }
    }
    None
}

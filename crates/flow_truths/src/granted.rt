ghost use Rattle.std.specs.Prelude.{◌≡◌};
ghost use Rattle.flow_truths.specs.Granted.{is_fresh_by, is_granted};

use crate::view::LoginView;
use flow_tree::{Tree, Truths};

/// Whether the asked level is fresh by the age of its live condition, if it has one.
fn is_fresh_by(view: &LoginView, age: Option<u64>) -> bool
    ensures { result ≡ is_fresh_by view.now age }
{
    match age {
        Some(age) => view.is_fresh(view.level, age),
        None => false,
    }
}

/// Whether the login has the level that it asks: level 0 always, any other where it has a live
/// condition and is fresh by its age, or where its condition's subflow acts and holds. It takes
/// no memory.
pub fn is_granted(view: &LoginView, truths: &Truths, tree: &Tree) -> bool
    ensures value { result ≡ is_granted view.now truths.now.held tree.now }
{
    view.level == 0
        || is_fresh_by(view, tree.live_age(view.level))
        || tree.level_by(view.level, truths)
}

ghost use Rattle.std.specs.Prelude.{◌≡◌};
ghost use Rattle.std.specs.List.{list_all};
ghost use Rattle.flow_truths.specs.Truth.{is_kept, is_held_by, is_leaf_true, is_condition_true};

use crate::view::LoginView;
use conditions::role_true;
use flow_tree::{Cond, Kind, LiveLevel};
use login_base::Name;

/// Whether the level is fresh, or above the one that the login asks.
fn is_kept(view: &LoginView, live: LiveLevel) -> bool
    ensures { result ≡ is_kept view.now live }
{
    live.level > view.level || view.is_fresh(live.level, live.age)
}

fn are_kept(view: &LoginView, levels: &[LiveLevel]) -> bool
    ensures { result ≡ list_all (is_kept view.now) levels.now }
{
    levels.iter().all(|live| is_kept(view, *live))
}

/// Whether there is a live session, and each of these levels up to the asked one is fresh.
pub fn is_held_by(view: &LoginView, levels: &[LiveLevel]) -> bool
    ensures { result ≡ is_held_by view.now levels.now }
{
    view.levels.is_some() && are_kept(view, levels)
}

/// Whether the leaf of this id is true, where a cookie is as given.
pub fn is_leaf_true(view: &LoginView, cookie: bool, id: &Name, kind: Kind) -> bool
    ensures { result ≡ is_leaf_true view.now cookie id.now kind }
{
    match kind {
        Kind::Allow => true,
        Kind::Deny => false,
        Kind::Cookie => cookie,
        Kind::Username | Kind::Password | Kind::Form | Kind::Otp | Kind::Recovery => {
            view.counted.as_slice().contains(id)
        }
    }
}

/// Whether the condition is true, where the user has set up what stands beside it or hasn't.
pub fn is_condition_true(view: &LoginView, beside: bool, cond: &Cond) -> bool
    ensures { result ≡ is_condition_true view.now beside cond.now }
{
    match cond {
        Cond::Role { role, negate } => role_true(view.account.as_ref(), role, *negate),
        Cond::Configured => beside,
        Cond::Level { level, age } => *level <= view.level && !view.is_fresh(*level, *age),
    }
}

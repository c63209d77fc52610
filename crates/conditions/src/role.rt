ghost use Rattle.std.specs.Prelude.{◌≡◌};
ghost use Rattle.std.specs.Option.{option_copied};
ghost use Rattle.conditions.specs.Truth.{role_true};

use crate::account::AccountView;
use login_base::Name;

/// Whether the user has the role, or with `negate` doesn't have it. It is false where the user
/// is unknown.
pub fn role_true(account: Option<&AccountView>, role: &Name, negate: bool) -> bool
    ensures value { result ≡ role_true (option_copied account.entry) role.now negate }
{
    match account {
        Some(account) => account.roles.as_slice().contains(role) != negate,
        None => false,
    }
}

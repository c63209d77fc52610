ghost use Rattle.std.specs.Prelude.{◌≡◌, ◌<◌, ◌&&◌, ◌==◌, ℤ, length, not, position, IfOk, IfSome};
ghost use Rattle.std.specs.BTreeSet.{contains};
ghost use Rattle.std.specs.Ordering.{nat_cmp};
ghost use Rattle.keeper_rules.specs.Misfits.{first_userless, is_user_in, AreUsers};
ghost use Rattle.keeper_columns.specs.Ranges.{is_serial, natural};

use keeper_columns::{is_serial, natural};
use keeper_rows::{AccountRow, SecretRow, SessionRow, TokenRow};
use login_base::Memory;
use std::alloc::Global;
use std::collections::BTreeSet;

/// A row of a user.
pub(crate) trait OfUser {
    ghost user: { Self → ℤ };

    fn user(&self) -> &i64
        ensures user { result.now ≡ user self.now };
}

impl OfUser for SecretRow {
    ghost use Rattle.keeper_rules.specs.Misfits.{secret_user};

    ghost user = { secret_user };

    fn user(&self) -> &i64 {
        &self.user
    }
}

impl OfUser for SessionRow {
    ghost use Rattle.keeper_rules.specs.Misfits.{session_user};

    ghost user = { session_user };

    fn user(&self) -> &i64 {
        &self.user
    }
}

impl OfUser for TokenRow {
    ghost use Rattle.keeper_rules.specs.Misfits.{token_user};

    ghost user = { token_user };

    fn user(&self) -> &i64 {
        &self.user
    }
}

/// The ids of accounts.
fn users_of(alloc: Global, accounts: &[AccountRow]) -> Result<BTreeSet<u64>, Memory>
    ensures { IfOk result (λ users. AreUsers users accounts.now) }
{
    let mut users = BTreeSet::new(alloc);
    for account in accounts {
        users.insert(natural(&account.id))?;
    }
    Ok(users)
}

/// Whether an id is one of these.
fn is_user(users: &BTreeSet<u64>, user: &i64) -> bool
    ensures { result ≡ is_user_in users.now user.now }
{
    is_serial(user) && users.contains(&natural(user))
}

/// The place of the first row whose user isn't one of these.
fn first_without<R: OfUser>(users: &BTreeSet<u64>, rows: &[R]) -> Option<usize>
    ensures place { result ≡ position (λ r. not (is_user_in users.now (R.user r))) rows.now }
    ensures within { IfSome result (λ at. at < length rows.now) }
{
    rows.iter().position(|row| !is_user(users, row.user()))
}

/// The place of the first row whose user isn't there.
pub(crate) fn first_userless<R: OfUser>(
    alloc: Global,
    accounts: &[AccountRow],
    rows: &[R],
) -> Result<Option<usize>, Memory>
    ensures ok { IfOk result (λ place. place ≡ first_userless R.user accounts.now rows.now) }
    ensures within { IfOk result (λ place. IfSome place (λ at. at < length rows.now)) }
{
    let users = users_of(alloc, accounts)?;
    Ok(first_without(&users, rows))
}

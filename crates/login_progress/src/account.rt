ghost use Rattle.std.specs.Prelude.{◌≡◌, [], unwrap_or, IfOk};
ghost use Rattle.std.specs.Option.{option_copied};
ghost use Rattle.login_progress.specs.Account.{next_code, account_of, holds};

use crate::recovery::recovery_list;
use conditions::{AccountView, SecretKind};
use fact_scans::{otp_of, password_of, recovery_of, roles_of};
use facts::Facts;
use login_base::{Duplicate, Memory, Name, Sequence, Steps, UserId};
use std::alloc::Global;
use std::sync::ledger::Ledger;

/// What a login sees of the account of a user who may be unknown.
#[derive(Debug, Drop)]
pub struct Account {
    pub view: Option<AccountView>,
    /// The number of the next recovery code, from 1.
    pub next_code: Option<u32>,
}

fn roles_from(alloc: Global, put: Option<&Sequence<Name>>) -> Result<Sequence<Name>, Memory>
    ensures { IfOk result (λ roles. roles ≡ unwrap_or (option_copied put.entry) []) }
{
    match put {
        Some(roles) => roles.duplicate(alloc),
        None => Ok(Sequence::new(alloc)),
    }
}

/// The number of the user's next recovery code.
#[tactic(auto, unfolding(crate::specs::Account::next_code))]
fn next_code<L: Ledger>(
    alloc: Global,
    facts: &Facts<'_>,
    user: UserId,
    steps: &mut Steps<L>,
) -> Result<Option<u32>, Memory>
    ensures { IfOk result (λ next. next ≡ next_code facts.now user) }
{
    match recovery_of(facts, user, steps) {
        Some(kept) => Ok(recovery_list(alloc, facts, &kept, steps)?.next()),
        None => Ok(None),
    }
}

/// The account of a user who may be unknown.
#[tactic(auto, unfolding(crate::specs::Account::account_of))]
pub(crate) fn account_of<L: Ledger>(
    alloc: Global,
    facts: &Facts<'_>,
    who: Option<UserId>,
    steps: &mut Steps<L>,
) -> Result<Account, Memory>
    ensures { IfOk result (λ account. account ≡ account_of facts.now who) }
{
    let Some(user) = who else {
        return Ok(Account {
            view: None,
            next_code: None,
        });
    };
    let next_code = next_code(alloc, facts, user, steps)?;
    let view = AccountView {
        roles: roles_from(alloc, roles_of(facts, user, steps))?,
        password: password_of(facts, user, steps).is_some(),
        otp: otp_of(facts, user, steps).is_some(),
        recovery: next_code.is_some(),
    };
    Ok(Account {
        view: Some(view),
        next_code,
    })
}

/// Whether the user is known and has the secret, of recovery codes an unspent one.
pub(crate) fn holds(account: &Option<AccountView>, secret: SecretKind) -> bool
    ensures { result ≡ holds account.now secret }
{
    match account {
        Some(account) => account.has(secret),
        None => false,
    }
}

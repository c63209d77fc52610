ghost use Rattle.std.specs.Prelude.{◌≡◌, ◌++◌, IfOk, OnOk};
ghost use Rattle.login_progress.specs.Asked.{can_answer, number_of, asked_as, asked_of};

use crate::account::holds;
use crate::login::Login;
use conditions::{AccountView, SecretKind};
use facts::Need;
use flow_tree::{Kind, Tree};
use login_base::{Duplicate, Memory, Name, Sequence};
use std::alloc::Global;

/// Whether an execution of this kind can be answered now.
fn can_answer(account: &Option<AccountView>, kind: Kind) -> bool
    ensures { result ≡ can_answer account.now kind }
{
    match kind {
        Kind::Username | Kind::Form => true,
        Kind::Password => holds(account, SecretKind::Password),
        Kind::Otp => holds(account, SecretKind::Otp),
        Kind::Recovery => holds(account, SecretKind::Recovery),
        Kind::Allow | Kind::Deny | Kind::Cookie => false,
    }
}

/// The number that is asked: that of the next recovery code.
fn number_of(next: Option<u32>, kind: Kind) -> u32
    ensures { result ≡ number_of next kind }
{
    match kind {
        Kind::Recovery => next.unwrap_or(0),
        Kind::Allow
        | Kind::Deny
        | Kind::Cookie
        | Kind::Username
        | Kind::Form
        | Kind::Password
        | Kind::Otp => 0,
    }
}

/// Adds the execution where it can be answered.
fn add_asked(
    alloc: Global,
    login: &Login,
    id: &Name,
    kind: Option<Kind>,
    asked: &mut Sequence<Need>,
) -> Result<(), Memory>
    ensures { OnOk result (asked.new ≡ asked.old ++ asked_as login.now id.now kind) }
{
    match kind {
        Some(kind) if can_answer(&login.view.account, kind) => asked.push(Need {
            id: id.duplicate(alloc)?,
            kind,
            number: number_of(login.next_code, kind),
        }),
        _ => Ok(()),
    }
}

/// The needs that can be answered.
#[tactic(auto, unfolding(crate::specs::Asked::asked_of))]
pub(crate) fn asked_of(
    alloc: Global,
    tree: &Tree,
    login: &Login,
    needs: &[Name],
) -> Result<Sequence<Need>, Memory>
    ensures { IfOk result (λ asked. asked ≡ asked_of tree.now login.now needs.now) }
{
    let mut asked = Sequence::new(alloc);
    for id in needs {
        add_asked(alloc, login, id, tree.kind_of(id), &mut asked)?;
    }
    Ok(asked)
}

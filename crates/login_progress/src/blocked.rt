ghost use Rattle.std.specs.Prelude.{◌≡◌, IfOk};
ghost use Rattle.std.specs.Option.{option_copied};
ghost use Rattle.login_progress.specs.Asked.{is_deny, lacks_setup, first_denied, first_lacking, first_not_configured, blocked};

use crate::progress::Progress;
use conditions::{AccountView, kind_configured};
use flow_tree::{Kind, Tree};
use login_base::{Duplicate, Memory, Name};
use std::alloc::Global;

fn is_deny(kind: Option<Kind>) -> bool
    ensures { result ≡ is_deny kind }
{
    matches!(kind, Some(Kind::Deny))
}

fn lacks_setup(account: &AccountView, kind: Option<Kind>) -> bool
    ensures { result ≡ lacks_setup account.now kind }
{
    match kind {
        Some(kind) => !kind_configured(account, kind),
        None => false,
    }
}

/// The first deny among the needs.
#[tactic(auto, unfolding(crate::specs::Asked::first_denied))]
fn first_denied<'a>(tree: &Tree, needs: &'a [Name]) -> Option<&'a Name>
    ensures { option_copied result ≡ first_denied tree.now needs.now }
{
    needs.iter().find(|id| is_deny(tree.kind_of(id)))
}

/// The first need that the user hasn't set up.
#[tactic(auto, unfolding(crate::specs::Asked::first_lacking))]
fn first_lacking<'a>(tree: &Tree, account: &AccountView, needs: &'a [Name]) -> Option<&'a Name>
    ensures { option_copied result ≡ first_lacking tree.now account.now needs.now }
{
    needs
        .iter()
        .find(|id| lacks_setup(account, tree.kind_of(id)))
}

/// The first need that a known user hasn't set up.
fn first_not_configured<'a>(
    tree: &Tree,
    account: &Option<AccountView>,
    needs: &'a [Name],
) -> Option<&'a Name>
    ensures { option_copied result ≡ first_not_configured tree.now account.now needs.now }
{
    match account {
        Some(account) => first_lacking(tree, account, needs),
        None => None,
    }
}

/// Why nothing is asked.
#[tactic(auto, unfolding(crate::specs::Asked::blocked))]
pub(crate) fn blocked(
    alloc: Global,
    tree: &Tree,
    account: &Option<AccountView>,
    needs: &[Name],
) -> Result<Progress, Memory>
    ensures { IfOk result (λ progress. progress ≡ blocked tree.now account.now needs.now) }
{
    if let Some(id) = first_denied(tree, needs) {
        return Ok(Progress::Denied {
            execution: id.duplicate(alloc)?,
        });
    }
    match first_not_configured(tree, account, needs) {
        Some(id) => Ok(Progress::NotConfigured {
            execution: id.duplicate(alloc)?,
        }),
        None => Ok(Progress::DeadEnd),
    }
}

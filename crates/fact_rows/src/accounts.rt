ghost use Rattle.std.specs.Prelude.{◌≡◌, ◌<◌, ◌^◌, [], IfOk, unwrap_or};
ghost use Rattle.facts.specs.Accounts.{roles_of};
ghost use Rattle.account_states.specs.Standings.{standing_of};
ghost use Rattle.fact_columns.specs.Words.{roles_text, actions_text};
ghost use Rattle.fact_rows.specs.Found.{pending_of};
ghost use Rattle.fact_rows.specs.Rows.{account_with, account_row};

use crate::found::pending_of;
use crate::keys::is_key;
use account_states::state_of;
use fact_columns::{actions_text, column, flag, moment_or_none, name_text, roles_text};
use fact_scans::{name_of, roles_of};
use facts::Facts;
use keeper_rows::{AccountRow, Text};
use login_base::{Memory, Name, Steps, UserId};
use std::alloc::Global;
use std::sync::ledger::Ledger;

/// The roles of a user, none where none were put.
#[tactic(auto, unfolding(fact_columns::specs::Lists::in_order))]
fn roles_column<L: Ledger>(
    alloc: Global,
    facts: &Facts<'_>,
    user: UserId,
    steps: &mut Steps<L>,
) -> Result<Text, Memory>
    ensures { IfOk result (λ text. text ≡ roles_text (unwrap_or (roles_of user facts.now) [])) }
{
    match roles_of(facts, user, steps) {
        Some(roles) => roles_text(alloc, roles.as_slice()),
        None => Text::new(alloc, ""),
    }
}

/// The actions that are pending for a user.
fn actions_column<L: Ledger>(
    alloc: Global,
    facts: &Facts<'_>,
    user: UserId,
    steps: &mut Steps<L>,
) -> Result<Text, Memory>
    ensures { IfOk result (λ text. text ≡ actions_text (pending_of user facts.now)) }
{
    actions_text(alloc, pending_of(alloc, facts, user, steps)?.as_slice())
}

/// The account of a user with this name.
fn account_with<L: Ledger>(
    alloc: Global,
    facts: &Facts<'_>,
    user: UserId,
    name: &Name,
    steps: &mut Steps<L>,
) -> Result<AccountRow, Memory>
    requires { user.0 < 2 ^ 63 }
    ensures { IfOk result (λ row. row ≡ account_with user (standing_of user facts.now) facts.now name.now) }
{
    let state = state_of(facts, user, steps);
    let standing = state.standing;
    Ok(AccountRow {
        id: user.0 as i64,
        name: name_text(alloc, name)?,
        roles: roles_column(alloc, facts, user, steps)?,
        enabled: flag(!state.disabled),
        count: i64::from(standing.count),
        last: moment_or_none(standing.last),
        until: column(standing.until),
        permanent: flag(standing.permanent),
        actions: actions_column(alloc, facts, user, steps)?,
    })
}

/// The account of a user that was put, where a column holds its serial.
#[tactic(auto, unfolding(crate::specs::Rows::account_row))]
pub fn account_row<L: Ledger>(
    alloc: Global,
    facts: &Facts<'_>,
    user: UserId,
    steps: &mut Steps<L>,
) -> Result<Option<AccountRow>, Memory>
    ensures ok { IfOk result (λ row. row ≡ account_row user facts.now) }
{
    if !is_key(user.0) {
        return Ok(None);
    }
    match name_of(facts, user, steps) {
        Some(name) => Ok(Some(account_with(alloc, facts, user, name, steps)?)),
        None => Ok(None),
    }
}

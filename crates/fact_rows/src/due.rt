ghost use Rattle.std.specs.Prelude.{◌≡◌, true, IfOk};
ghost use Rattle.fact_rows.specs.Due.{realm_at, account_at, secret_at, session_at, token_at, row_due};
ghost use Rattle.fact_rows.specs.Stored.{has_rows};

use crate::accounts::account_row;
use crate::marks::mark_with;
use crate::realms::realm_row;
use crate::secrets::secret_row;
use crate::sessions::session_row;
use crate::tokens::token_row;
use facts::Facts;
use keeper_rows::{AccountRow, RealmRow, Row, RowKey, SecretRow, SessionRow, Text, TokenRow};
use login_base::{Memory, Moment, SessionId, Steps, TokenKey, UserId, read_id};
use std::alloc::Global;
use std::sync::ledger::Ledger;

/// The row of the realm of a version, where it is in force.
fn realm_at(alloc: Global, facts: &Facts<'_>, version: u64) -> Result<Option<RealmRow>, Memory>
    ensures { IfOk result (λ row. row ≡ realm_at facts.now version) }
{
    match realm_row(alloc, facts)? {
        Some(row) if row.version == version => Ok(Some(row)),
        _ => Ok(None),
    }
}

fn account_at<L: Ledger>(
    alloc: Global,
    facts: &Facts<'_>,
    id: i64,
    steps: &mut Steps<L>,
) -> Result<Option<AccountRow>, Memory>
    ensures { IfOk result (λ row. row ≡ account_at facts.now id) }
{
    match u64::try_from(id) {
        Ok(serial) => account_row(alloc, facts, UserId(serial), steps),
        Err(_) => Ok(None),
    }
}

fn secret_at<L: Ledger>(
    alloc: Global,
    facts: &Facts<'_>,
    key: i64,
    steps: &mut Steps<L>,
) -> Result<Option<SecretRow>, Memory>
    ensures { IfOk result (λ row. row ≡ secret_at facts.now key) }
{
    match u64::try_from(key) {
        Ok(serial) => secret_row(alloc, facts, serial, steps),
        Err(_) => Ok(None),
    }
}

fn session_at<L: Ledger>(
    alloc: Global,
    facts: &Facts<'_>,
    text: &Text,
    steps: &mut Steps<L>,
) -> Result<Option<SessionRow>, Memory>
    ensures { IfOk result (λ row. row ≡ session_at facts.now text.now) }
{
    match read_id(text.as_bytes()) {
        Some(id) => session_row(alloc, facts, SessionId(id), steps),
        None => Ok(None),
    }
}

fn token_at<L: Ledger>(
    alloc: Global,
    facts: &Facts<'_>,
    text: &Text,
    steps: &mut Steps<L>,
) -> Result<Option<TokenRow>, Memory>
    ensures { IfOk result (λ row. row ≡ token_at facts.now text.now) }
{
    match read_id(text.as_bytes()) {
        Some(id) => token_row(alloc, facts, TokenKey(id), steps),
        None => Ok(None),
    }
}

/// The row that the facts give at a key, where some are stored, the last of them at this moment.
#[tactic(auto, unfolding(crate::specs::Rows::mark_row))]
pub fn row_due<L: Ledger>(
    alloc: Global,
    facts: &Facts<'_>,
    moment: Moment,
    key: &RowKey,
    steps: &mut Steps<L>,
) -> Result<Option<Row>, Memory>
    requires some { has_rows facts.now ≡ true }
    ensures ok { IfOk result (λ row. row ≡ row_due moment facts.now key.now) }
{
    Ok(match key {
        RowKey::Realm(version) => match realm_at(alloc, facts, *version)? {
            Some(RealmRow { version, realm }) => Some(Row::Realm { version, realm }),
            None => None,
        },
        RowKey::Account(id) => account_at(alloc, facts, *id, steps)?.map(Row::Account),
        RowKey::Secret(serial) => secret_at(alloc, facts, *serial, steps)?.map(Row::Secret),
        RowKey::Session(text) => session_at(alloc, facts, text, steps)?.map(Row::Session),
        RowKey::Token(text) => token_at(alloc, facts, text, steps)?.map(Row::Token),
        RowKey::Mark => Some(Row::Mark(mark_with(facts, moment))),
    })
}

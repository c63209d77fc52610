ghost use Rattle.std.specs.Prelude.{◌≡◌, IfOk};
ghost use Rattle.fact_rows.specs.Rows.{token_with, token_row};

use crate::found::token_kept;
use crate::kept_token::KeptToken;
use fact_columns::{column, flag, id_column, token_word};
use fact_scans::is_token_spent;
use facts::Facts;
use keeper_rows::{Text, TokenRow};
use login_base::{Memory, Steps, TokenKey};
use std::alloc::Global;
use std::sync::ledger::Ledger;

fn token_with<L: Ledger>(
    alloc: Global,
    facts: &Facts<'_>,
    key: TokenKey,
    own: &KeptToken,
    steps: &mut Steps<L>,
) -> Result<TokenRow, Memory>
    ensures { IfOk result (λ row. row ≡ token_with key facts.now own.now) }
{
    Ok(TokenRow {
        key: id_column(alloc, &key.0)?,
        user: column(own.user.0),
        kind: Text::new(alloc, token_word(own.kind))?,
        expiry: column(own.expiry),
        spent: flag(is_token_spent(facts, key, steps)),
    })
}

/// A token that was made.
#[tactic(auto, unfolding(crate::specs::Rows::token_row))]
pub fn token_row<L: Ledger>(
    alloc: Global,
    facts: &Facts<'_>,
    key: TokenKey,
    steps: &mut Steps<L>,
) -> Result<Option<TokenRow>, Memory>
    ensures ok { IfOk result (λ row. row ≡ token_row key facts.now) }
{
    match token_kept(facts, key, steps) {
        Some(own) => Ok(Some(token_with(alloc, facts, key, &own, steps)?)),
        None => Ok(None),
    }
}

//! Whether a token can be followed.
ghost use Rattle.std.specs.Prelude.{◌≡◌};
ghost use Rattle.token_asks.specs.Follow.{check_made, check_unspent, check_unexpired, check_token};

use fact_scans::{is_token_spent, token_made};
use facts::{Facts, Token, TokenAction};
use hall_answers::Refusal;
use login_base::{Moment, Steps, TokenKey, UserId};
use std::sync::ledger::Ledger;

/// There is a token of this key, for what is asked.
#[tactic(auto, unfolding(crate::specs::Follow::check_made))]
fn check_made<L: Ledger>(
    facts: &Facts<'_>,
    key: TokenKey,
    kind: TokenAction,
    steps: &mut Steps<L>,
) -> Result<Token, Refusal>
    ensures { result ≡ check_made facts.now key kind }
{
    match token_made(facts, key, kind, steps) {
        Some(token) => Ok(token),
        None => Err(Refusal::TokenUnknown),
    }
}

/// It wasn't followed before.
#[tactic(auto, unfolding(crate::specs::Follow::check_unspent))]
fn check_unspent<L: Ledger>(
    facts: &Facts<'_>,
    key: TokenKey,
    steps: &mut Steps<L>,
) -> Result<(), Refusal>
    ensures { result ≡ check_unspent facts.now key }
{
    if is_token_spent(facts, key, steps) {
        return Err(Refusal::TokenSpent);
    }
    Ok(())
}

/// The moment is before its expiry.
fn check_unexpired(moment: Moment, token: Token) -> Result<(), Refusal>
    ensures { result ≡ check_unexpired moment token }
{
    let expiry = token.expiry;
    if expiry <= moment.millis() {
        return Err(Refusal::TokenExpired { expiry });
    }
    Ok(())
}

/// The user whose token it is, where it can be followed.
#[tactic(auto, unfolding(crate::specs::Follow::check_token))]
pub(crate) fn check_token<L: Ledger>(
    facts: &Facts<'_>,
    moment: Moment,
    key: TokenKey,
    kind: TokenAction,
    steps: &mut Steps<L>,
) -> Result<UserId, Refusal>
    ensures { result ≡ check_token facts.now moment key kind }
{
    let token = check_made(facts, key, kind, steps)?;
    check_unspent(facts, key, steps)?;
    check_unexpired(moment, token)?;
    Ok(token.user)
}

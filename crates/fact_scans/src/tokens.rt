ghost use Rattle.std.specs.Prelude.{◌≡◌, nat_lt};
ghost use Rattle.facts.specs.Tokens.{token_made, is_token_spent, tokens_made};

use fact_walks::{FoldAbout, Pick, fold_by, last_by};
use facts::{Fact, Facts, Fold, Subject, Token, TokenAction};
use login_base::{Steps, TokenKey, same_id};
use std::sync::ledger::Ledger;

/// The most tokens that may ever be made.
const MOST_TOKENS: usize = 1_000_000;

/// Picks the token of a key that is made for an action.
#[derive(Clone, Copy, Debug)]
struct TokenBy {
    key: TokenKey,
    kind: TokenAction,
}

impl Pick for TokenBy {
    ghost use Rattle.facts.specs.Subjects.{is_of_token};
    ghost use Rattle.facts.specs.Tokens.{token_by};
    ghost use Rattle.fact_scans.specs.About.{of_token};

    type Out = Token;

    ghost pick = { λ t. token_by t.key t.kind };

    ghost about = { λ t. is_of_token t.key };

    fn of(&self, fact: &Fact) -> Option<Token> {
        match fact {
            Fact::TokenMade {
                key,
                user,
                kind,
                expiry,
            } if same_id(&key.0, &self.key.0) && *kind == self.kind => Some(Token {
                user: *user,
                expiry: *expiry,
            }),
            _ => None,
        }
    }

    fn is_about(&self, subject: Subject) -> bool {
        subject.is_of_token(self.key)
    }

    ghost only = { λ t. of_token t.key t.kind };
}

/// The token of a key, for an action.
#[tactic(auto, unfolding(facts::specs::Tokens::token_made))]
pub fn token_made<L: Ledger>(
    facts: &Facts<'_>,
    key: TokenKey,
    kind: TokenAction,
    steps: &mut Steps<L>,
) -> Option<Token>
    ensures value { result ≡ token_made key kind facts.now }
{
    last_by(facts, &TokenBy { key, kind }, steps)
}

/// Carries whether the token of a key was followed.
#[derive(Clone, Copy, Debug)]
struct SpentToken {
    key: TokenKey,
}

impl Fold for SpentToken {
    ghost use Rattle.fact_scans.specs.Carrying.{spent_after};

    type Carried = bool;

    ghost carry = { λ t. spent_after t.key };

    fn after(&self, carried: &mut bool, fact: &Fact) {
        match fact {
            Fact::SpentToken { key } if same_id(&key.0, &self.key.0) => *carried = true,
            _ => {}
        }
    }
}

impl FoldAbout for SpentToken {
    ghost use Rattle.facts.specs.Subjects.{is_of_token};
    ghost use Rattle.fact_scans.specs.About.{of_spending};

    ghost about = { λ t. is_of_token t.key };

    fn is_about(&self, subject: Subject) -> bool {
        subject.is_of_token(self.key)
    }

    ghost only = { λ t. of_spending t.key };
}

/// Whether the token of a key was followed.
#[tactic(auto, using(crate::proofs::TokenLemmas::spent_carried))]
pub fn is_token_spent<L: Ledger>(facts: &Facts<'_>, key: TokenKey, steps: &mut Steps<L>) -> bool
    ensures value { result ≡ is_token_spent key facts.now }
{
    fold_by(facts, &SpentToken { key }, false, steps)
}

/// Carries how many tokens were made.
#[derive(Clone, Copy, Debug)]
struct TokensMade;

impl Fold for TokensMade {
    ghost use Rattle.fact_scans.specs.Carrying.{tokens_after};

    type Carried = usize;

    ghost carry = { λ _. tokens_after };

    fn after(&self, carried: &mut usize, fact: &Fact) {
        match fact {
            Fact::TokenMade { .. } => *carried = (*carried).saturating_add(1).min(MOST_TOKENS),
            _ => {}
        }
    }
}

impl FoldAbout for TokensMade {
    ghost use Rattle.facts.specs.Subjects.{is_token};
    ghost use Rattle.fact_scans.specs.About.{of_tokens};

    ghost about = { λ _. is_token };

    fn is_about(&self, subject: Subject) -> bool {
        subject.is_token()
    }

    ghost only = { λ _. of_tokens };
}

/// Whether one more token may be made. A list of fewer facts isn't read.
pub fn has_token_room<L: Ledger>(facts: &Facts<'_>, steps: &mut Steps<L>) -> bool
    ensures value { result ≡ nat_lt (tokens_made facts.now) 1000000 }
{
    let (chronicle, more) = facts.parts();
    if chronicle.len().saturating_add(more.len()) < MOST_TOKENS {
        return true;
    }
    fold_by(facts, &TokensMade, 0, steps) < MOST_TOKENS
}

ghost use Rattle.std.specs.Prelude.{◌≡◌, ◌-◌, ◌^◌, IfOk};
ghost use Rattle.hall_answers.specs.HasSerials.{HasSerials};
ghost use Rattle.admin_asks.specs.Token.{if_room, check_holder, key_text, expiry_of, answer_to_token, due_token};

use crate::named::check_user;
use fact_scans::has_token_room;
use facts::{Fact, Facts, Life, TokenAction, What};
use hall_answers::{Answer, Refusal, Setting, next_token, refused};
use login_base::{Memory, Moment, Name, Sequence, Steps, TokenKey, UserId, id_text};
use std::alloc::Global;
use std::sync::ledger::Ledger;

/// Fewer tokens were made than may ever be.
fn if_room<L: Ledger>(
    facts: &Facts<'_>,
    user: UserId,
    steps: &mut Steps<L>,
) -> Result<UserId, Refusal>
    ensures { result ≡ if_room facts.now user }
{
    if has_token_room(facts, steps) {
        Ok(user)
    } else {
        Err(Refusal::TooManyTokens)
    }
}

/// The account of this name, for which there is room for a token.
#[tactic(auto, unfolding(crate::specs::Token::check_holder))]
fn check_holder<L: Ledger>(
    facts: &Facts<'_>,
    name: &Name,
    steps: &mut Steps<L>,
) -> Result<UserId, Refusal>
    ensures { result ≡ check_holder facts.now name.now }
{
    let user = check_user(facts, name, steps)?;
    if_room(facts, user, steps)
}

fn key_text(alloc: Global, key: TokenKey) -> Result<Sequence<u8>, Memory>
    ensures { IfOk result (λ text. text ≡ key_text key) }
{
    let mut text = Vec::new(alloc);
    text.extend_from_slice(b"token key=")?;
    text.extend_from_slice(&id_text(&key.0))?;
    Ok(Sequence::from_vec(text))
}

/// The moment from which a token can't be followed.
fn expiry_of(moment: Moment, life: Life) -> u64
    ensures { result ≡ expiry_of moment life }
{
    moment.millis() + 1000 * life.seconds()
}

/// A token of the user's is made, and its key is told.
fn answer_to_token(
    setting: &Setting<'_>,
    kind: TokenAction,
    life: Life,
    user: UserId,
) -> Result<Answer, Memory>
    requires serials { HasSerials setting.now.facts (2 ^ 63 - 8) }
    ensures { IfOk result (λ answer. answer ≡ answer_to_token setting.now kind life user) }
{
    let key = next_token(&setting.facts(), setting.draws);
    let text = key_text(setting.alloc, key)?;
    let mut added = Sequence::new(setting.alloc);
    added.push(Fact::TokenMade {
        key,
        user,
        kind,
        expiry: expiry_of(setting.moment, life),
    })?;
    Ok(Answer::plain(What::Told { text }, added))
}

/// What it is due to make a token for a user.
#[tactic(auto, unfolding(crate::specs::Token::due_token))]
pub(crate) fn due_token<L: Ledger>(
    setting: &Setting<'_>,
    name: &Name,
    kind: TokenAction,
    life: Life,
    steps: &mut Steps<L>,
) -> Result<Answer, Memory>
    requires serials { HasSerials setting.now.facts (2 ^ 63 - 8) }
    ensures { IfOk result (λ answer. answer ≡ due_token setting.now name.now kind life) }
{
    let facts = setting.facts();
    match check_holder(&facts, name, steps) {
        Ok(user) => answer_to_token(setting, kind, life, user),
        Err(refusal) => refused(setting.alloc, &facts, None, refusal, steps),
    }
}

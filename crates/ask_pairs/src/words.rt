ghost use Rattle.std.specs.Prelude.{◌≡◌, IfOk};
ghost use Rattle.std.specs.Option.{option_copied};
ghost use Rattle.ask_pairs.specs.Words.{roles_from, actions_from, action_from, token_action_of, token_action_from, secret_from, life_of, life_from};

use crate::lists::joined;
use asks::{Life, TokenAction};
use decimal_text::number;
use login_base::{Memory, Name, Sequence};
use realm_data::{Action, OtpSecret};
use realm_fields::{action_of, otp_of};
use std::alloc::Global;

/// The action that is given.
pub fn action_from(value: Option<&[u8]>) -> Option<Action>
    ensures action { result ≡ action_from (option_copied value.entry) }
{
    match value {
        Some(word) => action_of(word),
        None => None,
    }
}

fn token_action_of(word: &[u8]) -> Option<TokenAction>
    ensures { result ≡ token_action_of word.now }
{
    if word == b"verify_email".as_slice() {
        Some(TokenAction::VerifyEmail)
    } else if word == b"update_password".as_slice() {
        Some(TokenAction::UpdatePassword)
    } else {
        None
    }
}

/// The action of a token that is given.
pub fn token_action_from(value: Option<&[u8]>) -> Option<TokenAction>
    ensures action { result ≡ token_action_from (option_copied value.entry) }
{
    match value {
        Some(word) => token_action_of(word),
        None => None,
    }
}

/// The roles that are given, joined by commas; an empty text is none.
pub fn roles_from(alloc: Global, value: Option<&[u8]>) -> Result<Option<Sequence<Name>>, Memory>
    ensures roles { IfOk result (λ roles. roles ≡ roles_from (option_copied value.entry)) }
{
    match value {
        Some([]) => Ok(Some(Sequence::new(alloc))),
        Some(text) => joined(alloc, text),
        None => Ok(None),
    }
}

/// The actions that are given, joined by commas.
pub fn actions_from(alloc: Global, value: Option<&[u8]>) -> Result<Option<Sequence<Action>>, Memory>
    ensures actions { IfOk result (λ actions. actions ≡ actions_from (option_copied value.entry)) }
{
    match value {
        Some(text) => joined(alloc, text),
        None => Ok(None),
    }
}

/// The secret of one-time codes that is given.
pub fn secret_from(alloc: Global, value: Option<&[u8]>) -> Result<Option<OtpSecret>, Memory>
    ensures secret { IfOk result (λ secret. secret ≡ secret_from (option_copied value.entry)) }
{
    match value {
        Some(word) => otp_of(alloc, word),
        None => Ok(None),
    }
}

fn life_of(text: &[u8]) -> Option<Life>
    ensures { result ≡ life_of text.now }
{
    match number(text, u64::MAX) {
        Some(seconds) => Life::new(seconds),
        None => None,
    }
}

/// The life of a token that is given, in seconds.
pub fn life_from(value: Option<&[u8]>) -> Option<Life>
    ensures life { result ≡ life_from (option_copied value.entry) }
{
    match value {
        Some(text) => life_of(text),
        None => None,
    }
}

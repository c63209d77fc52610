ghost use Rattle.std.specs.Prelude.{◌≡◌, ◌-◌, decimal, filter, nat_le, IfOk};
ghost use Rattle.fact_columns.specs.Words.{secret_word, token_word, roles_text, actions_text, levels_text, greatest_step, near_steps, steps_text};

use crate::lists::list_text;
use asks::TokenAction;
use conditions::SecretKind;
use keeper_columns::ReachedLevel;
use keeper_rows::Text;
use login_base::{Memory, Name};
use realm_data::Action;
use std::alloc::Global;

/// The word of a secret's kind.
pub fn secret_word(kind: SecretKind) -> &'static str
    ensures word { result.now ≡ secret_word kind }
{
    match kind {
        SecretKind::Password => "password",
        SecretKind::Otp => "otp",
        SecretKind::Recovery => "recovery",
    }
}

/// The word of what a token is for.
pub fn token_word(kind: TokenAction) -> &'static str
    ensures word { result.now ≡ token_word kind }
{
    match kind {
        TokenAction::VerifyEmail => "verify_email",
        TokenAction::UpdatePassword => "update_password",
    }
}

/// A number in decimal digits.
pub fn number_text(alloc: Global, number: u64) -> Result<Text, Memory>
    ensures ok { IfOk result (λ text. text ≡ decimal number) }
{
    let text = number.to_string(alloc)?;
    Text::new(alloc, text.as_str())
}

/// Roles in byte order, without repeats.
pub fn roles_text(alloc: Global, roles: &[Name]) -> Result<Text, Memory>
    ensures ok { IfOk result (λ text. text ≡ roles_text roles.now) }
{
    list_text(alloc, roles)
}

/// Actions in the order in which they are asked, without repeats.
pub fn actions_text(alloc: Global, actions: &[Action]) -> Result<Text, Memory>
    ensures ok { IfOk result (λ text. text ≡ actions_text actions.now) }
{
    list_text(alloc, actions)
}

/// Levels ascending, each as it was reached last.
pub fn levels_text(alloc: Global, levels: &[ReachedLevel]) -> Result<Text, Memory>
    ensures ok { IfOk result (λ text. text ≡ levels_text levels.now) }
{
    list_text(alloc, levels)
}

/// The greatest step, 0 where there is none.
fn greatest_step(steps: &[u64]) -> u64
    ensures { result ≡ greatest_step steps.now }
{
    steps.iter().fold(0, |greatest, step| greatest.max(*step))
}

/// The steps that are no more than four before the greatest.
fn near_steps(alloc: Global, steps: &[u64]) -> Result<Vec<u64>, Memory>
    ensures { IfOk result (λ near. near.items ≡ near_steps steps.now) }
{
    let greatest = greatest_step(steps);
    Ok(
        steps
            .iter()
            .copied()
            .filter(|step| greatest.saturating_sub(*step) <= 4)
            .collect(alloc)?,
    )
}

/// The spent steps of 30 s (RFC 6238) from the newest less 4 on, ascending.
pub fn steps_text(alloc: Global, steps: &[u64]) -> Result<Text, Memory>
    ensures ok { IfOk result (λ text. text ≡ steps_text steps.now) }
{
    list_text(alloc, near_steps(alloc, steps)?.as_slice())
}

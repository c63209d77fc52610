//! What the columns of a login service's tables hold, as it is written: numbers, words and lists in
//! texts, and how secrets are kept. `keeper_columns` reads what is written here.
#![tactic(auto)]

mod bodies;
mod items;
mod laws;
mod lists;
mod names;
mod numbers;
#[cfg(test)]
mod tests;
mod words;

pub use bodies::{otp_body, password_body, recovery_body};
pub use items::Item;
pub use laws::{
    actions_are_read_back, kinds_are_read_back, levels_are_read_back, numbers_are_read_back,
    passwords_are_read_back, recovery_is_kept, roles_are_read_back, steps_are_read_back,
};
pub use names::{id_column, name_text};
pub use numbers::{column, flag, moment_or_none};
pub use words::{
    actions_text, levels_text, number_text, roles_text, secret_word, steps_text, token_word,
};

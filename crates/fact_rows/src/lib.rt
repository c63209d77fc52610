//! The rows that the facts of a login service give: which row is due at a key of a table, as its
//! columns hold it, and when tables stand for facts.
#![tactic(auto)]

mod accounts;
mod due;
mod found;
mod holder;
mod kept_token;
mod keys;
mod marks;
mod realms;
mod secrets;
mod sessions;
mod stored;
mod tokens;

pub use accounts::account_row;
pub use due::row_due;
pub use found::{holder_of, pending_of, session_kept, token_kept};
pub use holder::Holder;
pub use kept_token::KeptToken;
pub use marks::mark_with;
pub use realms::realm_row;
pub use secrets::{secret_row, secret_serial};
pub use sessions::session_row;
pub use stored::{has_stored, is_stored};
pub use tokens::token_row;

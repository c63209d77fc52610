//! The tables of a login service, as they are loaded from an SQLite database.
#![tactic(auto)]

mod accounts;
mod marks;
mod reading;
mod realms;
mod secrets;
mod sessions;
mod stored;
mod tables;
mod tokens;

pub use accounts::load_accounts;
pub use marks::{Marks, load_marks};
pub use realms::{Realms, load_realms};
pub use secrets::load_secrets;
pub use sessions::load_sessions;
pub use tables::{Loaded, load_tables};
pub use tokens::load_tokens;

//! Sessions and tokens in an SQLite database: a function for each statement.
#![tactic(auto)]

mod session;
mod token;

pub use session::{create_sessions, drop_session, put_session, select_sessions};
pub use token::{create_tokens, drop_token, put_token, select_tokens};

//! The tables of a login service whose keys are whole numbers: realms, accounts, secrets and marks.
#![tactic(auto)]

mod accounts;
mod marks;
mod realms;
mod secrets;

pub use accounts::{create_accounts, drop_account, put_account, select_accounts};
pub use marks::{create_marks, drop_mark, put_mark, select_marks};
pub use realms::{create_realms, drop_realm, put_realm, select_realms};
pub use secrets::{create_secrets, drop_secret, put_secret, select_secrets};

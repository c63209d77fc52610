//! What the asks of administrators are due: a file for each verb, but one for those that close an
//! account and open it, and one for those that end sessions.
#![tactic(auto)]

mod account;
mod admin;
mod closing;
mod ending;
mod given_secrets;
mod named;
mod otp_remove;
mod otp_set;
mod realm_put;
mod require;
mod roles;
mod set_password;
mod token;
mod user_add;

pub use account::add_account;
pub use admin::due_admin;
pub use given_secrets::GivenSecrets;

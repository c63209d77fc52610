//! What it is due to follow a token: one that verifies an e-mail address, or one that sets a new
//! password.
#![tactic(auto)]

mod follow;
mod token;

pub use follow::{due_reset, due_verify};

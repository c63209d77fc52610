//! When the conditions of a flow are true: the user has a role, the user has set up what the
//! executions beside the condition ask for, and a level was reached and hasn't aged out. Each is
//! a function of what is handed in: a view of the user's account, the executions beside the
//! condition, and the levels that the browser's live session has reached.
#![tactic(auto)]

mod account;
mod laws;
mod level;
mod role;
mod secret_kind;
mod setup;

pub use account::AccountView;
pub use laws::configured_law;
pub use level::{LevelView, fresh};
pub use role::role_true;
pub use secret_kind::{SecretKind, secret_of};
pub use setup::{configured, kind_configured};

#[cfg(test)]
mod tests;

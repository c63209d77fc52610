//! What the facts say of accounts: what failures have come to, whether an account is locked or
//! closed, and whether there is room for one more. Each answer is the value that a definition
//! gives.
#![tactic(auto)]

mod count;
mod failures;
mod policy;
mod state;
#[cfg(test)]
mod tests;

pub use count::has_room;
pub use failures::Failures;
pub use policy::ValidPolicy;
pub use state::{AccountState, state_of};

//! What is true of a flow, given a view of the login: which leaves and conditions of its tree are
//! true, whether the level that the login asks is granted, and which levels it records once it is
//! complete. A view holds all that this depends on: the user's account, the levels of the
//! browser's live session, and the executions with evidence that counts.
#![tactic(auto)]

mod granted;
mod laws;
mod leaf;
mod reached;
mod truths;
mod view;

pub use granted::is_granted;
pub use laws::truths_law;
pub use reached::levels_reached;
pub use truths::truths_of;
pub use view::LoginView;

#[cfg(test)]
mod tests;

//! How far a login has come: what its flow is judged by, what the flow still needs, and what of that
//! a page can ask.
#![tactic(auto)]

mod account;
mod asked;
mod blocked;
mod evidence;
mod known_tab;
mod login;
mod password;
mod progress;
mod recovery;

pub use known_tab::KnownTab;
pub use login::Login;
pub use password::password_for;
pub use progress::{Progress, progress_of};
pub use recovery::recovery_list;

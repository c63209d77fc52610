//! What the asks about a root are due: the open of a tab in a given root or a new one, and a logout.
#![tactic(auto)]

mod level;
mod logout;
mod new_tab;
mod place;
mod roots;

pub use logout::due_logout;
pub use new_tab::due_new_tab;

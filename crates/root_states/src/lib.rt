//! What the facts say of roots and sessions: how a root stands, whether there is room for one more
//! tab or root, which sessions stand, and which levels a session has reached. Each answer is the
//! value that a definition gives.
#![tactic(auto)]

mod count;
mod levels;
mod opening;
mod root;
mod sessions;
#[cfg(test)]
mod tests;

pub use count::{has_root_room, has_tab_room};
pub use levels::levels_of;
pub use root::{RootState, root_state};
pub use sessions::{is_standing, outlived_sessions};

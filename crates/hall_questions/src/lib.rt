//! Which questions an ask puts to the facts. Each function does nothing: its contract is a law.
#![tactic(auto)]

pub mod answers;
pub mod findings;
pub mod growing;

pub use answers::due_alike;
pub use findings::found_alike;
pub use growing::alike_with_more;

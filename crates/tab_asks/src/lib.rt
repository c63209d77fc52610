//! What a post is due: what may refuse it, what its check comes to, and what it adds where it is
//! accepted. The checks stand in their order.
#![tactic(auto)]

mod check;
mod checking;
mod codes;
mod deeds;
mod form;
mod gates;
mod passing;
mod post;

pub use form::{named_by, target_of};
pub use post::due_post;

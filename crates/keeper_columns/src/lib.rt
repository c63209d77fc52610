//! What the columns of a login service's tables can hold: the ranges of numbers, words and lists
//! in texts, and how secrets are kept.
#![tactic(auto)]

mod bodies;
mod levels;
mod lists;
mod ranges;
mod words;

pub use bodies::{is_kept, read_password};
pub use levels::ReachedLevel;
pub use lists::{ListItem, read_list};
pub use ranges::{
    is_above, is_count, is_end, is_flag, is_last, is_life, is_mark_serial, is_moment, is_serial,
    is_step_above, natural,
};
pub use words::{
    newest_step, read_actions, read_levels, read_roles, read_steps, secret_kind, token_kind,
};

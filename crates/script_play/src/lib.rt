//! The play of a script over a hall: each line is answered in its turn, by the entry that it is due,
//! or begins an ask that a later line settles.
//!
//! - `begun`: the asks that wait
//! - `entering`: the entry of a solved ask, and its text
//! - `player`: a hall and the asks that wait, line by line
#![tactic(auto)]

mod begun;
mod entering;
mod player;

pub use begun::BegunAsk;
pub use player::Player;

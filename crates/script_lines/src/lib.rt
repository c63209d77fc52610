//! What the lines of a script ask: the head of a line, its verb, and what its pairs ask. It knows
//! neither what an ask is answered, nor which asks are begun, nor where lines come from.
//!
//! - `lines`: a line, its moment, its draw number and its verb
//! - `step`: whether a line asks, begins an ask or settles one
//! - `line_place`: where a line is malformed, besides its pairs
#![tactic(auto)]

mod line_place;
mod lines;
mod step;

pub use lines::{LINE_LIMIT, ScriptLine, is_skipped, script_line};
pub use step::Step;

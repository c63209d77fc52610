//! What the tables of a login service say to a reader: a line for each user, session or token.
#![tactic(auto)]

mod columns;
mod laws;
mod names;
mod order;
mod report;
#[cfg(test)]
mod tests;

pub use laws::{bytes_are_printable, each_row_has_a_line};
pub use report::{Report, report_text};

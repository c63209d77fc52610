//! The rules that the tables of a login service keep, and the first row that breaks one.
#![tactic(auto)]

mod holder;
mod misfit;
mod misfits;
mod order;
mod repeats;
mod rows;
mod stamp;
mod stamps;
#[cfg(test)]
mod tests;
mod users;

pub use misfit::Misfit;
pub use misfits::{foreign_of, misfit_of};
pub use order::place_past;

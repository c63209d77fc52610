//! The hall: it keeps a legal history of asks, each entry of which has the one reply that is due
//! over all that happened before. It knows no text, clock, randomness, thread or store: moments
//! and random draws are handed in.
#![tactic(auto)]

mod begun;
mod due;
#[cfg(test)]
mod due_tests;
mod found;
mod hall;
#[cfg(test)]
mod order_tests;
mod proposal;
#[cfg(test)]
mod sample_asks;
#[cfg(test)]
mod sample_hall;
#[cfg(test)]
mod sample_lines;
#[cfg(test)]
mod sample_realms;
mod start;
#[cfg(test)]
mod start_tests;
mod task;
mod work;

pub use begun::Begun;
pub use hall::Hall;
pub use proposal::Proposal;
pub use start::Start;
pub use work::Work;

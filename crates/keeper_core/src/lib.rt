//! Who keeps the tables of a login service: what a keeper answers, and a keeper in memory.
#![tactic(auto)]

mod held;
mod keeper;
mod loading;
mod mem_keeper;
mod table;
#[cfg(test)]
mod tests;

pub use keeper::{CommitFault, Keeper, LoadFault};
pub use loading::checked;
pub use mem_keeper::MemKeeper;

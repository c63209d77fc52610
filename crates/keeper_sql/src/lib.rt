//! A keeper of the tables of a login service in an SQLite database.
#![tactic(auto)]

mod changes;
mod commit;
mod keeper;
mod loading;
mod making;
mod opening;
mod same;
#[cfg(test)]
mod tests;

pub use keeper::SqlKeeper;

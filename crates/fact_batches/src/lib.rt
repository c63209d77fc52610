//! The batch of an entry: the changes of rows that its facts come to, found by the keys that the
//! facts name. Tables that stand for the facts before stand for all of them after it.
#![tactic(auto)]

mod batches;
mod keys;
mod laws;
#[cfg(test)]
mod tests;

pub use batches::batch;
pub use laws::{batch_is_empty_where_nothing_is_stored, empty_tables_stand, tables_stand_on};

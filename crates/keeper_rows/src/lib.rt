//! What is kept of a login service between two runs: the tables, their rows and keys, and the
//! changes that a commit makes, as plain data.
#![tactic(auto)]

mod change;
mod keyed;
mod rows;
mod tables;
#[cfg(test)]
mod tests;
mod text;

pub use change::{Batch, Change, Row, RowKey};
pub use keyed::Keyed;
pub use rows::{AccountRow, MarkRow, RealmRow, SecretRow, SessionRow, TokenRow};
pub use tables::Tables;
pub use text::Text;

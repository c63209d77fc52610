//! The tables of a login service in an SQLite database: their schema, what rows tell, and how a
//! statement ends.
#![tactic(auto)]

mod fault;

pub use fault::Fault;

//! Realms as realm files: TOML documents that are read as the realm that they were printed of,
//! whatever the realm.
//!
//! - `values`: what can be printed as a TOML value, which is read as it; `lists`: arrays
//! - `tables`: tables, key by key
//! - `words`, `secrets`: texts with a grammar
//! - `settings`, `levels`, `users`, `execs`: the tables of a realm
//! - `print`: all of it; `text`: a document's text
#![tactic(auto)]

mod execs;
mod levels;
mod lists;
mod print;
mod secrets;
mod settings;
mod tables;
#[cfg(test)]
mod tests;
mod text;
mod users;
mod values;
mod words;

pub use print::print_realm;

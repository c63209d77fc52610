//! Realm files: TOML documents that say how the users of an organisation log in. A realm is read
//! exactly where a document meets the format; else the first fault in the format's order is named
//! with its path.
//!
//! - `execs`: the flow; `realm_fields` reads the other tables
//! - `rules`: doubled names, and levels that no condition asks
//! - `read`: all of it
//! - `text`: faults in words
#![tactic(auto)]

mod execs;
mod read;
mod rules;
#[cfg(test)]
mod tests;
mod text;

pub use read::read_realm;
pub use realm_fields::RealmFault;
pub use text::fault_text;

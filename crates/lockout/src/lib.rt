//! The rule by which failures close an account, with numbers that an operator can check by hand.
//!
//! It follows Keycloak's brute force detection (Server Administration Guide, "Brute force
//! attacks") with two modes: failures lock an account for a time, which grows with them, or they
//! close it for good. The crate is plain data and arithmetic: it knows neither a clock nor an
//! account, and takes no memory.
#![tactic(auto)]

pub mod laws;
pub mod policy;
pub mod standing;
#[cfg(test)]
mod tests;

pub use policy::{Mode, Policy};
pub use standing::Standing;

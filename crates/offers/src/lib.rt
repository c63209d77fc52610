//! What an ask offers to a user who has to set up one-time codes (RFC 6238) or recovery codes: 32
//! bytes that the ask's random draws determine, and the secret, codes and texts that those bytes
//! determine.
//!
//! - `offer`: the 32 bytes that an ask's draws make
//! - `secret`: the secret of one-time codes in an offer
//! - `codes`: the recovery codes of an offer, and their digests
//! - `shown`: what the page of a required action shows of an offer
#![tactic(auto)]

mod codes;
mod offer;
mod secret;
mod shown;
#[cfg(test)]
mod tests;

pub use codes::{offered_codes, offered_digests};
pub use offer::offer_of;
pub use secret::offered_secret;
pub use shown::shown_for;

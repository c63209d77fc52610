//! What a second factor is checked by: base32 texts of secrets (RFC 4648), one-time codes of
//! the time (TOTP of RFC 6238, over the HOTP of RFC 4226), and numbered recovery codes.
//!
//! The codes are functions of key, step and digits, and each check answers one `Verdict` that its
//! definition (`specs/`) determines. Only base32 takes memory.
//!
//! - `base32`: secrets as people type them
//! - `regrouped`: bits from digits of one width to digits of another
//! - `totp`: the code of a step, and the check of a typed one
//! - `recovery`: a list of digests of which a front is spent
//! - `verdict`: what a check found
#![tactic(auto)]

mod base32;
mod recovery;
mod regrouped;
#[cfg(test)]
mod tests;
mod totp;
mod verdict;

pub use base32::{Base32Fault, base32_read, base32_reads_back, base32_text};
pub use recovery::RecoveryList;
pub use totp::{check_totp, totp_at};
pub use verdict::Verdict;

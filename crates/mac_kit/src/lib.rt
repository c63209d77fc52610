//! Message authentication and password hashing: HMAC (RFC 2104) over SHA-1, SHA-256 and SHA-512,
//! and PBKDF2 (RFC 8018) over HMAC with SHA-1 and SHA-256.
//!
//! Both formulas are written once, over any hash function that reads its message in blocks, and
//! once more as definitions over lists of bytes (`specs/`), which the contracts cite. No call
//! takes memory or refuses.
//!
//! - `block_hash`: the hash functions, with their block lengths
//! - `hmac`: a key taken in once, and the code of each message under it
//! - `pbkdf2`: keys of up to 64 bytes, derived from passwords
#![tactic(auto)]

mod block_hash;
mod hmac;
mod pbkdf2;
#[cfg(test)]
mod tests;

pub use hmac::{hmac_sha1, hmac_sha256, hmac_sha512};
pub use pbkdf2::{pbkdf2_sha1, pbkdf2_sha256};

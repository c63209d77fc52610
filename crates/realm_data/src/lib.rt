//! Realms: how the users of an organisation log in, to what, and who they are; and the secrets
//! that users are kept with. The type of a realm keeps the ranges and rules of a realm file.
#![tactic(auto)]

mod action;
mod otp_secret;
mod password_hash;
mod realm;
mod realm_builtin;
mod realm_parts;
mod realm_rules;
mod recovery_digests;
mod same;
#[cfg(test)]
mod tests;

pub use action::Action;
pub use otp_secret::OtpSecret;
pub use password_hash::{PasswordHash, is_iterations};
pub use realm::Realm;
pub use realm_parts::{AcrLevel, Client, OtpRule, RealmParts, RealmUser, SessionLimits};
pub use recovery_digests::RecoveryDigests;
pub use same::Same;

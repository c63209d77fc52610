//! The questions that an ask puts to the facts, each answered by one scan over the chronicle and
//! the facts behind it. Every answer is the value that the definitions of `facts` give.
#![tactic(auto)]

mod accounts;
mod actions;
mod evidence;
mod moments;
mod passwords;
mod realms;
mod serials;
mod sessions;
mod spent;
mod tabs;
#[cfg(test)]
mod tests;
mod tokens;
mod user_secrets;

pub use accounts::{account_named, is_disabled, name_of, roles_of};
pub use actions::{Pending, first_pending};
pub use evidence::has_evidence;
pub use fact_walks::{FoldAbout, Pick, fold_by, fold_kept, last_by};
pub use moments::last_used_moment;
pub use passwords::password_of;
pub use realms::{current_realm, last_version, realm_of};
pub use serials::{last_stored_serial, last_tab_serial};
pub use sessions::{ended_by, seen_at, session_after};
pub use spent::{codes_spent, spent_steps};
pub use tabs::{tab_state, tab_state_with};
pub use tokens::{has_token_room, is_token_spent, token_made};
pub use user_secrets::{otp_of, recovery_of};

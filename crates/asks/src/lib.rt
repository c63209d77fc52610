//! What is asked of the service, and what it answers, as plain data: asks with their forms and
//! verbs, what the check of a password found, and replies. Here stands what an ask does with its
//! password, and that a solved ask holds none; when a reply is due is said above.
#![tactic(auto)]

mod admin;
mod ask;
mod finding;
mod reply;
mod rule;
mod solved;
#[cfg(test)]
mod tests;

pub use admin::{AdminVerb, Life, NewUser, TokenAction};
pub use ask::{Access, Ask, Form, NewTab, Post};
pub use finding::{Finding, PasswordUse};
pub use reply::{Need, Next, Reply, What, Who};
pub use rule::Rule;
pub use solved::{Solved, password_use, take_password};

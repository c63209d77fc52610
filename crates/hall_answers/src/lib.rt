//! Answers: what an ask meets, the reply that it is due with the facts that it adds, the refusals
//! in their order, new ids, and new passwords.
#![tactic(auto)]

mod answer;
mod ids;
mod passwords;
mod refusal;
mod refusing;
mod sequences;
mod setting;

pub use answer::Answer;
pub use ids::{next_code, next_session, next_token, root_key, tab_key};
pub use passwords::{add_password, derived};
pub use refusal::Refusal;
pub use refusing::{refused, who_named};
pub use sequences::joined;
pub use setting::{Setting, realm_now};

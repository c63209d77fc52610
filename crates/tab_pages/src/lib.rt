//! What a tab is answered: which tab an ask is about, whether it may go on, and its page, its
//! completion, or why there is neither. Each refusal is a check of its own.
#![tactic(auto)]

mod completion;
mod offering;
mod pages;
mod visit;

pub use completion::add_seen;
pub use offering::{NO_OFFER, is_shown, offer_for, offer_on, shown_in};
pub use pages::{due_page, page_fact, tab_answer, visit_answer};
pub use visit::{
    check_account, check_tab, check_unfinished, check_visit, check_whole, same_user, user_of,
};

//! The laws of what the hall answers. Each function does nothing: its contract is a law.
#![tactic(auto)]

pub mod checks;
pub mod closing;
pub mod codes;
pub mod completed;
pub mod evidence;
pub mod levels;
pub mod ready;
pub mod repeats;
pub mod spent;
pub mod starts;
pub mod tab_history;

pub use checks::check_counts_unless_refused;
pub use closing::{closed_stays_closed, closed_through_a_history, locked_stays_locked};
pub use codes::{ask_counts_codes, mark_counts_codes, start_counts_codes};
pub use completed::{tabs_complete_once, tabs_complete_once_in_a_history};
pub use evidence::{only_posts_add_evidence, post_adds_asked_evidence};
pub use levels::{level_is_fresh, no_session_lives, nothing_is_fresh, session_lives};
pub use ready::{open_completes, page_completes, post_completes};
pub use repeats::{accepted_post_again, completed_post_again};
pub use spent::{codes_are_spent_once, codes_are_spent_once_in_a_history};
pub use starts::start_adds_the_same;
pub use tab_history::tab_state_tells;

//! The laws of pages and requests. Each function does nothing: its contract is a law.
//!
//! - `cookies`: when a browser is given a root to keep
//! - `markup`, `texts`: that nothing in a page is to be escaped; `names`, `told`: that the names in
//!   replies and asks are names
//! - `forms`: forms that a page shows, and the posts that they stand for
//! - `fronts`: requests that come bit by bit
#![tactic(auto)]

pub mod cookies;
pub mod forms;
pub mod fronts;
pub mod markup;
mod names;
pub mod texts;
mod told;

pub use cookies::cookie_where_words_begin_with_root;
pub use forms::{action_is_read_back, execution_is_read_back};
pub use fronts::{bytes_have_one_reading, front_reads_the_same};
pub use markup::values_are_no_markup;
pub use texts::due_texts_are_plain;

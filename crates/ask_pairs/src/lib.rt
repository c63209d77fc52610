//! What form-urlencoded pairs ask: the pairs of each verb of a browser and of an administrator, and
//! of each form of a post, read into an ask or named as malformed at the first place that is missing,
//! doubled or outside its grammar. It knows neither where pairs come from, nor what an ask is
//! answered.
//!
//! - `pairs`: form-urlencoded pairs; `place`: where an ask is malformed
//! - `credentials`, `keys`, `lists`, `words`: the grammars of values
//! - `access`: the key of an administrator
//! - `form_kind`, `post_target`, `post`: the forms of a post
//! - `browser_verb`, `browsers`: the verbs of a browser
//! - `admin_word`, `accounts`, `admin`: the verbs of an administrator
//! - `ask`: all of them
#![tactic(auto)]

mod access;
mod accounts;
mod admin;
mod admin_word;
mod ask;
mod browser_verb;
mod browsers;
mod credentials;
mod form_kind;
mod keys;
mod lists;
mod pairs;
mod place;
mod post;
mod post_target;
#[cfg(test)]
mod tests;
mod words;

pub use admin::admin_of;
pub use ask::{ask_of, ask_of_pairs, keyed_ask};
pub use browser_verb::BrowserVerb;
pub use browsers::browser_ask;
pub use keys::root_of;
pub use pairs::{Pair, pairs_of, value_of};
pub use place::Place;

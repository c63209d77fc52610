//! Walks over the facts of a chronicle and those behind it: for the last fact that answers a
//! question, and with something carried from fact to fact. A fact is read only where it can matter.
#![tactic(auto)]

mod folds;
mod holds;
mod picks;

pub use folds::{FoldAbout, fold_by, fold_kept};
pub use holds::{AccountHold, last_held, last_held_by_account};
pub use picks::{AccountPick, Pick, last_by, last_by_account};

//! The line of a reply: its words, as a script is answered with them.
#![tactic(auto)]

#[cfg(test)]
mod tests;
mod text;
mod write;

pub use write::words_of;

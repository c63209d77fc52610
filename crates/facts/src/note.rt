use crate::subject::Subject;

/// What is kept beside each fact of a chronicle.
#[derive(Clone, Copy, Debug, PartialEq, Eq)]
pub struct Note {
    pub subject: Subject,
    /// The greatest serial of a root or a tab that the facts name so far.
    pub known: u64,
}

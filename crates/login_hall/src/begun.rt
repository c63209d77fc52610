use crate::work::Work;
use facts::Solved;

/// What the beginning of an ask comes to.
#[derive(Drop)]
pub enum Begun {
    /// The ask has a password, which is still to be hashed.
    Work(Work),
    /// The ask has none: nothing is to be found.
    Ready(Solved),
}

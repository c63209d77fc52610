use crate::fact::Fact;
use asks::{Reply, Solved};
use login_base::{Draws, Moment, Sequence};

/// One ask as it was answered. It holds no password.
#[derive(Debug, Drop)]
pub struct Entry {
    /// Who asked: 0 for a script.
    pub caller: u32,
    pub moment: Moment,
    pub draws: Draws,
    pub solved: Solved,
    pub reply: Reply,
    /// The facts that the ask added.
    pub added: Sequence<Fact>,
}

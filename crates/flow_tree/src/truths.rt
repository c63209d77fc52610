use login_base::{Name, Sequence};

/// The ids of the leaves and conditions that are true, in any order.
#[derive(Debug, Drop)]
pub struct Truths {
    pub held: Sequence<Name>,
}

/// Whose secret it is, and the number of its kind.
#[derive(Clone, Copy, Debug, PartialEq, Eq, PartialOrd, Ord)]
pub struct Holder {
    pub user: u64,
    pub kind: u8,
}

/// What a row has that the mark row bounds.
#[derive(Clone, Copy, Debug, PartialEq, Eq)]
pub struct Stamp {
    pub serial: u64,
    /// The latest moment, in milliseconds.
    pub moment: Option<u64>,
    /// The newest spent step of 30 s.
    pub step: Option<u64>,
}

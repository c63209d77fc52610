use login_base::Moment;

/// A level of authentication that a session reached: 1 to 1,000.
#[derive(Clone, Copy, Debug, PartialEq, Eq)]
pub struct ReachedLevel {
    pub level: u32,
    /// The moment of its last proof.
    pub moment: Moment,
}

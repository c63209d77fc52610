use facts::UserPassword;

/// What is to be done with the password of an ask.
#[derive(Clone, Copy, Debug)]
pub(crate) enum Task {
    /// It is checked against this one, or fits none.
    Check { target: Option<UserPassword> },
    /// It is hashed, to be kept.
    Derive { salt: [u8; 16], iterations: u32 },
}

use login_base::UserId;

/// What an accepted post uses up.
#[derive(Clone, Copy, Debug, PartialEq, Eq)]
pub enum Spent {
    /// Nothing: a name and a password can be used again.
    Nothing,
    /// The one-time code of this time step (RFC 6238).
    Step(u64),
    /// The recovery code of this number.
    Number(u32),
}

/// The secret by which a post is accepted.
#[derive(Clone, Copy, Debug, PartialEq, Eq)]
pub struct Credential {
    /// The serial with which it was set, 0 where a name was all that it took.
    pub serial: u64,
    /// What of it is used up.
    pub spent: Spent,
}

/// What the check of a post comes to.
#[derive(Clone, Copy, Debug, PartialEq, Eq)]
pub enum Check {
    /// It fits a secret of the user.
    Fits {
        user: UserId,
        credential: Credential,
    },
    /// The password doesn't fit, or no user has the name, or the user has no password.
    Wrong {
        user: Option<UserId>,
    },
    /// The code is none that the user could give now.
    WrongCode {
        user: Option<UserId>,
    },
    /// The code is one that was used: of this time step, or of this number.
    SpentCode {
        step: u64,
    },
}

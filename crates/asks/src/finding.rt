/// What the check of a password found.
#[derive(Clone, Copy, Debug, PartialEq, Eq)]
pub enum Finding {
    /// The ask has no password.
    None,
    /// The password was checked against the secret with the serial `had`, 0 where there was none.
    Checked {
        had: u64,
        fits: bool,
    },
    /// The password that is set, as its key by PBKDF2 with HMAC-SHA-256 (RFC 8018, section 5.2),
    /// with the salt and the number of iterations.
    Derived {
        salt: [u8; 16],
        iterations: u32,
        digest: [u8; 32],
    },
}

/// What an ask does with its password.
#[derive(Clone, Copy, Debug, PartialEq, Eq)]
pub enum PasswordUse {
    /// It has none.
    NoPassword,
    /// It compares it with the one that is kept.
    Checks,
    /// It makes it the one that is kept.
    Sets,
}

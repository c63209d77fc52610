use login_base::{Duplicate, Memory};
use std::alloc::Global;

/// What a user may be required to do before a login completes, in the order in which it is asked.
#[derive(Clone, Copy, Debug, PartialEq, Eq)]
pub enum Action {
    /// Accept the terms.
    Terms,
    /// Follow a token of this kind, which shows that mail arrives.
    VerifyEmail,
    /// Set a new password.
    UpdatePassword,
    /// Set up one-time codes (RFC 6238) by a code of an offered secret.
    ConfigureOtp,
    /// Take the recovery codes that are offered.
    RecoveryCodes,
}

impl Duplicate for Action {
    fn duplicate(&self, _alloc: Global) -> Result<Action, Memory> {
        Ok(*self)
    }
}

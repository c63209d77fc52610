use login_base::{Name, Sequence};

/// What conditions see of a user.
#[derive(Debug, Drop)]
pub struct AccountView {
    pub roles: Sequence<Name>,
    /// The user has a password.
    pub password: bool,
    /// The user has a secret for one-time passwords.
    pub otp: bool,
    /// The user has an unspent recovery code.
    pub recovery: bool,
}

ghost use Rattle.std.specs.Prelude.{◌≡◌};
ghost use Rattle.conditions.specs.Secrets.{secret_of, has_secret};

use crate::account::AccountView;
use flow_tree::Kind;

/// What a user logs in with.
#[derive(Clone, Copy, Debug, PartialEq, Eq)]
pub enum SecretKind {
    /// For executions of the kinds password and form.
    Password,
    /// The key of one-time codes (RFC 6238).
    Otp,
    /// Recovery codes, numbered from 1.
    Recovery,
}

/// The secret that an authenticator of this kind rests on: none where it asks for none.
pub fn secret_of(kind: Kind) -> Option<SecretKind>
    ensures value { result ≡ secret_of kind }
{
    match kind {
        Kind::Password | Kind::Form => Some(SecretKind::Password),
        Kind::Otp => Some(SecretKind::Otp),
        Kind::Recovery => Some(SecretKind::Recovery),
        Kind::Allow | Kind::Deny | Kind::Cookie | Kind::Username => None,
    }
}

impl AccountView {
    /// Whether the user has the secret, of recovery codes an unspent one.
    pub fn has(&self, secret: SecretKind) -> bool
        ensures value { result ≡ has_secret self.now secret }
    {
        match secret {
            SecretKind::Password => self.password,
            SecretKind::Otp => self.otp,
            SecretKind::Recovery => self.recovery,
        }
    }
}

use conditions::SecretKind;
use login_base::UserId;

/// Whose secret of which kind.
#[derive(Clone, Copy, Debug, PartialEq, Eq)]
pub struct Holder {
    pub user: UserId,
    pub kind: SecretKind,
}

use asks::TokenAction;
use login_base::UserId;

/// A token as it was made: whose it is, what it is for, and the moment from which it can't be
/// followed, in milliseconds.
#[derive(Clone, Copy, Debug, PartialEq, Eq)]
pub struct KeptToken {
    pub user: UserId,
    pub kind: TokenAction,
    pub expiry: u64,
}

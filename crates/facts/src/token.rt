use login_base::UserId;

/// A token as it was made: whose it is, and the moment from which it can't be followed, in
/// milliseconds.
#[derive(Clone, Copy, Debug, PartialEq, Eq)]
pub struct Token {
    pub user: UserId,
    pub expiry: u64,
}

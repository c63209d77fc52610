/// The rules of the administrators' verbs.
#[derive(Clone, Copy, Debug, PartialEq, Eq)]
pub enum Rule {
    /// The ask's key isn't the realm's.
    WrongKey,
    /// An account has the name.
    UserTaken,
    /// There are as many accounts as there may be.
    TooManyUsers,
    /// No account has the name.
    NoSuchUser,
    /// There is nothing to take away.
    NothingThere,
    /// A disabled account isn't unlocked: it has to be enabled.
    AccountDisabled,
    /// As many tokens were made as there may be.
    TooManyTokens,
    /// There is no session of this id, or it has ended.
    NoSuchSession,
    /// The text is no realm.
    RealmRefused,
}

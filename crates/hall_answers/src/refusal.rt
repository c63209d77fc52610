use login_base::{Code, UserId};

/// Why an ask is refused.
#[derive(Clone, Copy, Debug, PartialEq, Eq)]
pub enum Refusal {
    /// The administrator's key isn't the realm's.
    WrongKey,
    /// An account has the name already.
    UserTaken,
    /// There are as many accounts as there may be.
    TooManyUsers,
    /// No account has the name.
    NoSuchUser,
    /// The user has no secret of one-time codes to take away.
    NothingThere,
    /// The account is closed, which takes more than an unlock to open.
    AccountDisabled,
    /// The text is no realm.
    RealmRefused,
    /// As many tokens were made as may ever be.
    TooManyTokens,
    /// There is no such session, or it has been ended.
    NoSuchSession,
    /// The realm has no such client.
    UnknownClient,
    /// The realm has no level of the asked name.
    LevelUnknown,
    /// A new root is needed, and as many are known as may be.
    TooManyRoots,
    /// So many tabs are known in the root, or in all roots: as many as may be.
    TooManyTabs { count: u32 },
    /// No root is given, or it has no such tab that is known.
    UnknownTab,
    /// The tab's life is over.
    TabExpired,
    /// The code isn't the one that was shown last.
    Stale { current: Option<Code> },
    /// The user of the tab, or of the post, isn't the one of the root's live session.
    OtherUser { tab: UserId, session: UserId },
    /// The tab has completed.
    Finished,
    /// The execution isn't asked, or takes another form; or the action isn't the one that is asked.
    NotAsked,
    /// The account of the user concerned is locked before this moment, in milliseconds.
    Locked { until: u64 },
    /// The account of the user concerned is closed.
    Disabled,
    /// The password was checked against another one than the user's.
    CredentialMoved { had: u64, now: u64 },
    /// There is no token of this key for what is asked.
    TokenUnknown,
    /// The token was followed before.
    TokenSpent,
    /// The token could be followed before this moment, in milliseconds.
    TokenExpired { expiry: u64 },
}

ghost use Rattle.std.specs.Prelude.{◌≡◌};
ghost use Rattle.facts.specs.Subjects.{
  subject_of,
  concerns,
  is_of_root,
  is_opening,
  is_session,
  is_of_session,
  is_realm,
  is_account,
  is_of_user,
  is_login_in,
  is_of_secret,
  is_token,
  is_of_token,
  is_other,
};

use crate::fact::Fact;
use login_base::{RootKey, SessionId, TabKey, TokenKey, UserId};

/// Of what a fact can say something. It is kept beside the fact, so that a question needs to read
/// those facts alone that can have an answer.
#[derive(Clone, Copy, Debug, PartialEq, Eq)]
pub enum Subject {
    /// Of the realm.
    Realm,
    /// Of the account of the user with this serial.
    User(u64),
    /// Of the secret with this serial.
    Secret(u64),
    /// Of the tab with this serial.
    Tab(u64),
    /// Of the opening of a tab in a root, both by their serials.
    Opening { root: u64, tab: u64 },
    /// Of the login of a user in a tab, both by their serials.
    Login { tab: u64, user: u64 },
    /// Of a session that begins in a root, both by their serials.
    Root { root: u64, session: u64 },
    /// Of the session with this serial, in whatever root.
    Session(u64),
    /// Of the token with this serial.
    Token(u64),
    /// Of something else.
    Other,
}

impl Subject {
    /// The subject of a fact.
    pub fn of(fact: &Fact) -> Subject
        ensures value { result ≡ subject_of fact.now }
    {
        match fact {
            Fact::RealmPut { .. } => Subject::Realm,
            Fact::UserPut { user, .. }
            | Fact::SecretSet { user, .. }
            | Fact::ActionSet { user, .. }
            | Fact::ActionDone { user, .. }
            | Fact::Enabled { user }
            | Fact::Disabled { user }
            | Fact::Failed { user, .. }
            | Fact::Standing { user, .. } => Subject::User(user.0),
            Fact::SpentStep { credential, .. } | Fact::SpentRecovery { credential, .. } => {
                Subject::Secret(*credential)
            }
            Fact::Opened { root, tab, .. } => Subject::Opening {
                root: root.0.serial,
                tab: tab.0.serial,
            },
            Fact::Rendered { tab, .. } | Fact::Named { tab, .. } => Subject::Tab(tab.0.serial),
            Fact::Passed { tab, user, .. } | Fact::Completed { tab, user, .. } => Subject::Login {
                tab: tab.0.serial,
                user: user.0,
            },
            Fact::Session {
                session,
                root: Some(root),
                ..
            } => Subject::Root {
                root: root.0.serial,
                session: session.0.serial,
            },
            Fact::Session {
                session,
                root: None,
                ..
            }
            | Fact::Seen { session, .. }
            | Fact::Level { session, .. }
            | Fact::SessionEnd { session } => Subject::Session(session.0.serial),
            Fact::TokenMade { key, .. } | Fact::SpentToken { key } => Subject::Token(key.0.serial),
            Fact::Mark { .. } => Subject::Other,
        }
    }

    /// Whether it can be about the tab of the root.
    pub fn concerns(self, root: RootKey, tab: TabKey) -> bool
        ensures value { result ≡ concerns root tab self }
    {
        match self {
            Subject::Tab(serial)
            | Subject::Opening { tab: serial, .. }
            | Subject::Login { tab: serial, .. } => serial == tab.0.serial,
            Subject::Root { root: serial, .. } => serial == root.0.serial,
            Subject::Session(_) => true,
            Subject::Realm
            | Subject::User(_)
            | Subject::Secret(_)
            | Subject::Token(_)
            | Subject::Other => false,
        }
    }

    /// Whether it can be about the root: its tabs, or its session.
    pub fn is_of_root(self, root: RootKey) -> bool
        ensures value { result ≡ is_of_root root self }
    {
        match self {
            Subject::Opening { root: serial, .. } | Subject::Root { root: serial, .. } => {
                serial == root.0.serial
            }
            Subject::Session(_) => true,
            Subject::Realm
            | Subject::User(_)
            | Subject::Secret(_)
            | Subject::Tab(_)
            | Subject::Login { .. }
            | Subject::Token(_)
            | Subject::Other => false,
        }
    }

    /// Whether it is the opening of a tab.
    pub fn is_opening(self) -> bool
        ensures value { result ≡ is_opening self }
    {
        matches!(self, Subject::Opening { .. })
    }

    /// Whether it is a session.
    pub fn is_session(self) -> bool
        ensures value { result ≡ is_session self }
    {
        matches!(self, Subject::Root { .. } | Subject::Session(_))
    }

    /// Whether it is this session.
    pub fn is_of_session(self, session: SessionId) -> bool
        ensures value { result ≡ is_of_session session self }
    {
        match self {
            Subject::Root {
                session: serial,
                ..
            }
            | Subject::Session(serial) => serial == session.0.serial,
            _ => false,
        }
    }

    /// Whether it is the realm.
    pub fn is_realm(self) -> bool
        ensures value { result ≡ is_realm self }
    {
        matches!(self, Subject::Realm)
    }

    /// Whether it is an account.
    pub fn is_account(self) -> bool
        ensures value { result ≡ is_account self }
    {
        matches!(self, Subject::User(_))
    }

    /// Whether it is the user's account.
    pub fn is_of_user(self, user: UserId) -> bool
        ensures value { result ≡ is_of_user user self }
    {
        matches!(self, Subject::User(serial) if serial == user.0)
    }

    /// Whether it is a login of the user in the tab.
    pub fn is_login_in(self, tab: TabKey, user: UserId) -> bool
        ensures value { result ≡ is_login_in tab user self }
    {
        match self {
            Subject::Login {
                tab: serial,
                user: of,
            } => serial == tab.0.serial && of == user.0,
            _ => false,
        }
    }

    /// Whether it is the secret of this serial.
    pub fn is_of_secret(self, serial: u64) -> bool
        ensures value { result ≡ is_of_secret serial self }
    {
        matches!(self, Subject::Secret(own) if own == serial)
    }

    /// Whether it is a token.
    pub fn is_token(self) -> bool
        ensures value { result ≡ is_token self }
    {
        matches!(self, Subject::Token(_))
    }

    /// Whether it is the token of this key.
    pub fn is_of_token(self, key: TokenKey) -> bool
        ensures value { result ≡ is_of_token key self }
    {
        matches!(self, Subject::Token(serial) if serial == key.0.serial)
    }

    /// Whether it is something else than a realm, an account, a secret, a tab, a session or a token.
    pub fn is_other(self) -> bool
        ensures value { result ≡ is_other self }
    {
        matches!(self, Subject::Other)
    }
}

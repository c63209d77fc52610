ghost use Rattle.std.specs.Prelude.{◌≡◌, ◌≤◌, Some, None, if◌then◌else◌};
ghost use Rattle.asks.specs.Ranges.{is_life};

use login_base::{Name, Sequence, SessionId};
use realm_data::{Action, OtpSecret, Realm};
use std::marker::Model;

/// How long a token lives: 1 to 31,536,000 seconds.
#[derive(Clone, Copy, Debug, PartialEq, Eq)]
pub struct Life {
    seconds: u64,
}

impl Model for Life {
    ghost use Rattle.std.specs.Prelude.{ℕ, IsTrue};
    ghost use Rattle.asks.specs.Ranges.{is_life};

    ghost Value = { ℕ };

    ghost view = { λ l. l.seconds };

    ghost invariant = { λ l. IsTrue (is_life l.seconds) };

    ghost inverse = { λ n. record { seconds = n } };
}

impl Life {
    /// The life of so many seconds, or none where that is out of the range.
    pub fn new(seconds: u64) -> Option<Life>
        ensures value { result ≡ (if is_life seconds then Some seconds else None) }
    {
        if seconds >= 1 && seconds <= 31_536_000 {
            Some(Life { seconds })
        } else {
            None
        }
    }

    /// The life in seconds, 1 to 31,536,000.
    #[tactic(auto, using(crate::proofs::RangeLemmas::life_most))]
    pub fn seconds(&self) -> u64
        ensures seconds { result ≡ self.now }
        ensures most { result ≤ 31536000 }
    {
        self.seconds
    }
}

/// What a token can be for.
#[derive(Clone, Copy, Debug, PartialEq, Eq)]
pub enum TokenAction {
    /// Following it does `Action::VerifyEmail`.
    VerifyEmail,
    /// Following it sets a new password, and does `Action::UpdatePassword`.
    UpdatePassword,
}

/// An account to be added, with the actions that its first login asks. The password is in bytes,
/// and empty once it is hashed.
#[derive(Debug, Drop)]
pub struct NewUser {
    pub name: Name,
    pub password: Option<Sequence<u8>>,
    pub otp: Option<OtpSecret>,
    pub roles: Sequence<Name>,
    pub actions: Sequence<Action>,
}

/// What an administrator asks.
#[derive(Debug, Drop)]
pub enum AdminVerb {
    /// Puts a realm in the place of the one before, or none where the text was no realm.
    RealmPut {
        realm: Option<Realm>,
    },
    /// Adds an account.
    UserAdd(NewUser),
    /// Puts these roles in the place of all that the user had.
    Roles {
        name: Name,
        roles: Sequence<Name>,
    },
    /// Sets a new password, in bytes, empty once it is hashed. What rests on the one before counts
    /// in no tab any more.
    SetPassword {
        name: Name,
        password: Sequence<u8>,
    },
    /// Sets the secret of the user's one-time codes (RFC 6238).
    OtpSet {
        name: Name,
        secret: OtpSecret,
    },
    /// Takes the secret of the user's one-time codes away.
    OtpRemove {
        name: Name,
    },
    /// Requires an action before the user's next login completes.
    Require {
        name: Name,
        action: Action,
    },
    /// Enables the account, and forgets its failures.
    Enable {
        name: Name,
    },
    /// Disables the account until it is enabled.
    Disable {
        name: Name,
    },
    /// Forgets the failures of an account that isn't disabled.
    Unlock {
        name: Name,
    },
    /// Makes a token for the user, which can be spent once and while it lives.
    Token {
        name: Name,
        action: TokenAction,
        life: Life,
    },
    /// Ends a session.
    Revoke {
        session: SessionId,
    },
    /// Ends each session that isn't live any more.
    Sweep,
}

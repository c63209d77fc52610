use crate::admin::AdminVerb;
use login_base::{Code, Name, RootKey, Sequence, TabKey, TokenKey};

/// What a post carries.
#[derive(Debug, Drop)]
pub enum Form {
    /// A name, for an execution of the kind username.
    Username {
        execution: Name,
        name: Name,
    },
    /// A password in bytes, of the user whose login the tab is.
    Password {
        execution: Name,
        password: Sequence<u8>,
    },
    /// A name and a password in bytes, for an execution of the kind form.
    NamePassword {
        execution: Name,
        name: Name,
        password: Sequence<u8>,
    },
    /// A one-time code (RFC 6238, section 4, over RFC 4226, section 5.3) or a recovery code.
    Value {
        execution: Name,
        value: Sequence<u8>,
    },
    /// Accepts the terms.
    Terms,
    /// Sets the new password that is required, in bytes.
    UpdatePassword {
        password: Sequence<u8>,
    },
    /// Sets the secret that the page offers, by a code of it (RFC 6238, section 4).
    ConfigureOtp {
        value: Sequence<u8>,
    },
    /// Takes the recovery codes that the page offers.
    RecoveryCodes,
    /// Does nothing: that action is done by a token alone.
    VerifyEmail,
}

/// How an administrator came in.
#[derive(Clone, Copy, Debug, PartialEq, Eq)]
pub enum Access {
    /// By a script or the command line.
    Local,
    /// By HTTP, with a key of this SHA-256 digest (FIPS 180-4, section 6.2).
    Key([u8; 32]),
}

/// A tab to be opened for a client, in this root or a new one, for at least the level of the name
/// `acr` (OpenID Connect Core 1.0, `acr_values`).
#[derive(Debug, Drop)]
pub struct NewTab {
    pub root: Option<RootKey>,
    pub client: Name,
    pub acr: Option<Name>,
}

/// A form that is posted to a tab, with the code of the page that it stood on.
#[derive(Debug, Drop)]
pub struct Post {
    pub root: Option<RootKey>,
    pub tab: TabKey,
    pub code: Code,
    pub form: Form,
}

/// What is asked of the service.
#[derive(Debug, Drop)]
pub enum Ask {
    /// Something malformed: `at` names the place.
    Bad {
        at: Name,
    },
    /// Opens a tab.
    NewTab(NewTab),
    /// Shows a tab's page again.
    Page {
        root: Option<RootKey>,
        tab: TabKey,
    },
    /// Posts a form.
    Post(Post),
    /// Follows a token of `verify_email`.
    Verify {
        key: TokenKey,
    },
    /// Follows a token of `update_password`, with the new password in bytes.
    Reset {
        key: TokenKey,
        password: Sequence<u8>,
    },
    /// Ends the root's live session.
    Logout {
        root: Option<RootKey>,
    },
    /// What an administrator asks.
    Admin {
        access: Access,
        verb: AdminVerb,
    },
}

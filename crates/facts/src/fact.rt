use crate::secret::Secret;
use asks::TokenAction;
use conditions::SecretKind;
use lockout::Standing;
use login_base::{
    Code, Duplicate, Memory, Moment, Name, RootKey, Sequence, SessionId, TabKey, TokenKey, UserId,
};
use realm_data::{Action, Realm};
use std::alloc::Global;

/// One thing that happened. Serials and ids are those of the ask that it came from.
#[derive(Debug, Drop)]
pub enum Fact {
    /// From now on the realm is this one, with this version.
    RealmPut {
        version: u64,
        realm: Realm,
    },
    /// The account stands so from now on.
    UserPut {
        user: UserId,
        name: Name,
        roles: Sequence<Name>,
    },
    /// A secret was set or taken away: `by` that tab, or by none. A removal has the serial 0.
    SecretSet {
        user: UserId,
        kind: SecretKind,
        serial: u64,
        secret: Secret,
        by: Option<TabKey>,
    },
    /// The action is required of the user.
    ActionSet {
        user: UserId,
        kind: Action,
    },
    /// The action isn't required any more.
    ActionDone {
        user: UserId,
        kind: Action,
    },
    /// A token that can be spent before `expiry`, in milliseconds.
    TokenMade {
        key: TokenKey,
        user: UserId,
        kind: TokenAction,
        expiry: u64,
    },
    /// The token was followed, and can't be again.
    SpentToken {
        key: TokenKey,
    },
    /// The account isn't disabled any more.
    Enabled {
        user: UserId,
    },
    /// The account is disabled until it is enabled: its logins are refused.
    Disabled {
        user: UserId,
    },
    /// A failed attempt on the account.
    Failed {
        user: UserId,
        moment: Moment,
    },
    /// The code of a time step of 30 s (RFC 6238) was used, of the secret with this serial.
    SpentStep {
        credential: u64,
        step: u64,
    },
    /// A recovery code was used, by its number in the list with this serial.
    SpentRecovery {
        credential: u64,
        number: u32,
    },
    /// A session began, in a root or in none. `idle` and `max` are seconds.
    Session {
        session: SessionId,
        root: Option<RootKey>,
        user: UserId,
        moment: Moment,
        idle: u64,
        max: u64,
    },
    /// The session was used.
    Seen {
        session: SessionId,
        moment: Moment,
    },
    /// The session reached a level of authentication.
    Level {
        session: SessionId,
        level: u32,
        moment: Moment,
    },
    /// The session is over. It doesn't give its root an earlier one back.
    SessionEnd {
        session: SessionId,
    },
    /// A tab's login is complete.
    Completed {
        tab: TabKey,
        user: UserId,
        session: SessionId,
        moment: Moment,
    },
    /// A tab was opened, with the realm of this version. Its life is in milliseconds.
    Opened {
        root: RootKey,
        tab: TabKey,
        version: u64,
        level: u32,
        life: u64,
        moment: Moment,
    },
    /// A tab's page was shown, with the action that it asks, if any, and the offer of the ask.
    Rendered {
        tab: TabKey,
        code: Code,
        action: Option<Action>,
        offer: [u8; 32],
    },
    /// A tab's post named this user.
    Named {
        tab: TabKey,
        user: UserId,
    },
    /// A tab's post for an execution was accepted. It rests on the secret of this kind and serial,
    /// or on none, with the serial 0, where a name was all that it took.
    Passed {
        tab: TabKey,
        execution: Name,
        user: UserId,
        kind: Option<SecretKind>,
        credential: u64,
        moment: Moment,
    },
    /// An opening value: what the user's failures have come to.
    Standing {
        user: UserId,
        standing: Standing,
    },
    /// An opening value: the last serials of both counters, and the last moments used and stored.
    Mark {
        tab_serial: u64,
        stored_serial: u64,
        used_moment: Moment,
        stored_moment: Moment,
    },
}

impl Duplicate for Fact {
    fn duplicate(&self, alloc: Global) -> Result<Fact, Memory> {
        Ok(match self {
            Fact::RealmPut { version, realm } => Fact::RealmPut {
                version: *version,
                realm: realm.duplicate(alloc)?,
            },
            Fact::UserPut { user, name, roles } => Fact::UserPut {
                user: *user,
                name: name.duplicate(alloc)?,
                roles: roles.duplicate(alloc)?,
            },
            Fact::SecretSet {
                user,
                kind,
                serial,
                secret,
                by,
            } => Fact::SecretSet {
                user: *user,
                kind: *kind,
                serial: *serial,
                secret: secret.duplicate(alloc)?,
                by: *by,
            },
            Fact::ActionSet { user, kind } => Fact::ActionSet {
                user: *user,
                kind: *kind,
            },
            Fact::ActionDone { user, kind } => Fact::ActionDone {
                user: *user,
                kind: *kind,
            },
            Fact::TokenMade {
                key,
                user,
                kind,
                expiry,
            } => Fact::TokenMade {
                key: *key,
                user: *user,
                kind: *kind,
                expiry: *expiry,
            },
            Fact::SpentToken { key } => Fact::SpentToken { key: *key },
            Fact::Enabled { user } => Fact::Enabled { user: *user },
            Fact::Disabled { user } => Fact::Disabled { user: *user },
            Fact::Failed { user, moment } => Fact::Failed {
                user: *user,
                moment: *moment,
            },
            Fact::SpentStep { credential, step } => Fact::SpentStep {
                credential: *credential,
                step: *step,
            },
            Fact::SpentRecovery { credential, number } => Fact::SpentRecovery {
                credential: *credential,
                number: *number,
            },
            Fact::Session {
                session,
                root,
                user,
                moment,
                idle,
                max,
            } => Fact::Session {
                session: *session,
                root: *root,
                user: *user,
                moment: *moment,
                idle: *idle,
                max: *max,
            },
            Fact::Seen { session, moment } => Fact::Seen {
                session: *session,
                moment: *moment,
            },
            Fact::Level {
                session,
                level,
                moment,
            } => Fact::Level {
                session: *session,
                level: *level,
                moment: *moment,
            },
            Fact::SessionEnd { session } => Fact::SessionEnd { session: *session },
            Fact::Completed {
                tab,
                user,
                session,
                moment,
            } => Fact::Completed {
                tab: *tab,
                user: *user,
                session: *session,
                moment: *moment,
            },
            Fact::Opened {
                root,
                tab,
                version,
                level,
                life,
                moment,
            } => Fact::Opened {
                root: *root,
                tab: *tab,
                version: *version,
                level: *level,
                life: *life,
                moment: *moment,
            },
            Fact::Rendered {
                tab,
                code,
                action,
                offer,
            } => Fact::Rendered {
                tab: *tab,
                code: *code,
                action: *action,
                offer: *offer,
            },
            Fact::Named { tab, user } => Fact::Named {
                tab: *tab,
                user: *user,
            },
            Fact::Passed {
                tab,
                execution,
                user,
                kind,
                credential,
                moment,
            } => Fact::Passed {
                tab: *tab,
                execution: execution.duplicate(alloc)?,
                user: *user,
                kind: *kind,
                credential: *credential,
                moment: *moment,
            },
            Fact::Standing { user, standing } => Fact::Standing {
                user: *user,
                standing: *standing,
            },
            Fact::Mark {
                tab_serial,
                stored_serial,
                used_moment,
                stored_moment,
            } => Fact::Mark {
                tab_serial: *tab_serial,
                stored_serial: *stored_serial,
                used_moment: *used_moment,
                stored_moment: *stored_moment,
            },
        })
    }
}

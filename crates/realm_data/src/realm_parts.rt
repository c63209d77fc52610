use crate::action::Action;
use crate::otp_secret::OtpSecret;
use crate::password_hash::PasswordHash;
use crate::recovery_digests::RecoveryDigests;
use flow_tree::Tree;
use lockout::Policy;
use login_base::{Duplicate, Memory, Name, Sequence};
use std::alloc::Global;

/// How long sessions and tabs live, in seconds.
#[derive(Clone, Copy, Debug, PartialEq, Eq)]
pub struct SessionLimits {
    /// A session that isn't used for so long has ended: 1 to 31,536,000.
    pub idle: u64,
    /// So long after its begin each session has ended: 1 to 31,536,000.
    pub max: u64,
    /// A tab's life: 60 to 86,400.
    pub tab: u64,
}

/// How one-time codes are read (RFC 6238).
#[derive(Clone, Copy, Debug, PartialEq, Eq)]
pub struct OtpRule {
    /// The digits of a code: 6 to 8.
    pub digits: u32,
    /// The time steps before and after the present one whose codes are taken too: 0 to 2.
    pub window: u32,
}

/// A name for a level of authentication (OpenID Connect Core 1.0, `acr`): 0 to 1,000.
#[derive(Debug, PartialEq, Eq, Drop)]
pub struct AcrLevel {
    pub name: Name,
    pub level: u32,
}

/// What users log in to, and the least level of authentication that it asks: 0 to 1,000.
#[derive(Debug, PartialEq, Eq, Drop)]
pub struct Client {
    pub id: Name,
    pub level: u32,
}

/// A user whom the realm comes with.
#[derive(Debug, Drop)]
pub struct RealmUser {
    pub name: Name,
    pub roles: Sequence<Name>,
    /// Where not, the account is disabled when it is added.
    pub enabled: bool,
    pub password: Option<PasswordHash>,
    pub otp: Option<OtpSecret>,
    pub recovery: Option<RecoveryDigests>,
    /// What the user's first login asks.
    pub actions: Sequence<Action>,
}

/// What a realm is made of.
#[derive(Drop)]
pub struct RealmParts {
    pub name: Name,
    /// SHA-256 (FIPS 180-4, section 6.2) of the administrators' key.
    pub admin_key: [u8; 32],
    pub flow: Tree,
    pub session: SessionLimits,
    /// How often a new password is hashed: 1 to 2,000,000 times.
    pub iterations: u32,
    pub otp: OtpRule,
    /// How many recovery codes a user is given: 1 to 16.
    pub recovery_count: u32,
    pub lockout: Policy,
    /// The levels' names, strictly ascending in byte order.
    pub acr: Sequence<AcrLevel>,
    /// 1 to 64 clients.
    pub clients: Sequence<Client>,
    /// At most 10,000 users.
    pub users: Sequence<RealmUser>,
}

impl Duplicate for AcrLevel {
    fn duplicate(&self, alloc: Global) -> Result<AcrLevel, Memory> {
        Ok(AcrLevel {
            name: self.name.duplicate(alloc)?,
            level: self.level,
        })
    }
}

impl Duplicate for Client {
    fn duplicate(&self, alloc: Global) -> Result<Client, Memory> {
        Ok(Client {
            id: self.id.duplicate(alloc)?,
            level: self.level,
        })
    }
}

impl Duplicate for RealmUser {
    fn duplicate(&self, alloc: Global) -> Result<RealmUser, Memory> {
        Ok(RealmUser {
            name: self.name.duplicate(alloc)?,
            roles: self.roles.duplicate(alloc)?,
            enabled: self.enabled,
            password: self.password,
            otp: self.otp.duplicate(alloc)?,
            recovery: self.recovery.duplicate(alloc)?,
            actions: self.actions.duplicate(alloc)?,
        })
    }
}

impl Duplicate for RealmParts {
    fn duplicate(&self, alloc: Global) -> Result<RealmParts, Memory> {
        Ok(RealmParts {
            name: self.name.duplicate(alloc)?,
            admin_key: self.admin_key,
            flow: self.flow.duplicate(alloc)?,
            session: self.session,
            iterations: self.iterations,
            otp: self.otp,
            recovery_count: self.recovery_count,
            lockout: self.lockout,
            acr: self.acr.duplicate(alloc)?,
            clients: self.clients.duplicate(alloc)?,
            users: self.users.duplicate(alloc)?,
        })
    }
}

ghost use Rattle.std.specs.Prelude.{◌≡◌, ◌↔◌, IsTrue};

use crate::action::Action;
use crate::otp_secret::OtpSecret;
use crate::password_hash::PasswordHash;
use crate::realm_parts::{AcrLevel, Client, OtpRule, RealmParts, RealmUser, SessionLimits};
use crate::recovery_digests::RecoveryDigests;
use lockout::Policy;
use login_base::{Name, Sequence};

/// What can be compared as a whole.
pub trait Same {
    fn is_same(&self, other: &Self) -> bool
        ensures value { IsTrue result ↔ (self.now ≡ other.now) };
}

/// Whether the items are equal one by one.
fn same_items<T: Same>(a: &[T], b: &[T]) -> bool
    ensures { IsTrue result ↔ (a.now ≡ b.now) }
{
    if a.len() != b.len() {
        return false;
    }
    for i in 0..a.len() {
        if !a[i].is_same(&b[i]) {
            return false;
        }
    }
    true
}

impl Same for Name {
    fn is_same(&self, other: &Name) -> bool {
        self.as_bytes() == other.as_bytes()
    }
}

impl Same for [u8; 32] {
    fn is_same(&self, other: &[u8; 32]) -> bool {
        *self == *other
    }
}

impl Same for Action {
    fn is_same(&self, other: &Action) -> bool {
        *self == *other
    }
}

impl Same for OtpSecret {
    fn is_same(&self, other: &OtpSecret) -> bool {
        self.key() == other.key()
    }
}

impl Same for RecoveryDigests {
    fn is_same(&self, other: &RecoveryDigests) -> bool {
        same_items(self.digests(), other.digests())
    }
}

impl Same for PasswordHash {
    fn is_same(&self, other: &PasswordHash) -> bool {
        self.salt() == other.salt()
            && self.iterations() == other.iterations()
            && self.digest().is_same(other.digest())
    }
}

impl<T: Same> Same for Option<T> {
    fn is_same(&self, other: &Option<T>) -> bool {
        match (self, other) {
            (Some(value), Some(other)) => value.is_same(other),
            (None, None) => true,
            _ => false,
        }
    }
}

impl<T: Same> Same for Sequence<T> {
    fn is_same(&self, other: &Sequence<T>) -> bool {
        same_items(self.as_slice(), other.as_slice())
    }
}

impl Same for SessionLimits {
    fn is_same(&self, other: &SessionLimits) -> bool {
        *self == *other
    }
}

impl Same for OtpRule {
    fn is_same(&self, other: &OtpRule) -> bool {
        *self == *other
    }
}

impl Same for Policy {
    fn is_same(&self, other: &Policy) -> bool {
        *self == *other
    }
}

impl Same for AcrLevel {
    fn is_same(&self, other: &AcrLevel) -> bool {
        self.name.is_same(&other.name) && self.level == other.level
    }
}

impl Same for Client {
    fn is_same(&self, other: &Client) -> bool {
        self.id.is_same(&other.id) && self.level == other.level
    }
}

impl Same for RealmUser {
    fn is_same(&self, other: &RealmUser) -> bool {
        self.name.is_same(&other.name)
            && self.roles.is_same(&other.roles)
            && self.enabled == other.enabled
            && self.password.is_same(&other.password)
            && self.otp.is_same(&other.otp)
            && self.recovery.is_same(&other.recovery)
            && self.actions.is_same(&other.actions)
    }
}

impl Same for RealmParts {
    fn is_same(&self, other: &RealmParts) -> bool {
        self.name.is_same(&other.name)
            && self.admin_key.is_same(&other.admin_key)
            && self.flow.is_same(&other.flow)
            && self.session.is_same(&other.session)
            && self.iterations == other.iterations
            && self.otp.is_same(&other.otp)
            && self.recovery_count == other.recovery_count
            && self.lockout.is_same(&other.lockout)
            && self.acr.is_same(&other.acr)
            && self.clients.is_same(&other.clients)
            && self.users.is_same(&other.users)
    }
}

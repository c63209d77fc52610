use login_base::{Duplicate, Memory};
use realm_data::{OtpSecret, PasswordHash, RecoveryDigests};
use std::alloc::Global;

/// A secret as it is kept.
#[derive(Debug, Drop)]
pub enum Secret {
    /// A key by PBKDF2 (RFC 8018, section 5.2).
    Password { hash: PasswordHash },
    /// The key of a TOTP generator (RFC 6238).
    Otp { secret: OtpSecret },
    /// SHA-256 (FIPS 180-4, section 6.2) of each recovery code, from number 1.
    Recovery { digests: RecoveryDigests },
    /// The secret was taken away.
    Gone,
}

impl Duplicate for Secret {
    fn duplicate(&self, alloc: Global) -> Result<Secret, Memory> {
        Ok(match self {
            Secret::Password { hash } => Secret::Password { hash: *hash },
            Secret::Otp { secret } => Secret::Otp {
                secret: secret.duplicate(alloc)?,
            },
            Secret::Recovery { digests } => Secret::Recovery {
                digests: digests.duplicate(alloc)?,
            },
            Secret::Gone => Secret::Gone,
        })
    }
}

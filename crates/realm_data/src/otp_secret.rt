ghost use Rattle.std.specs.Prelude.{◌≡◌, IsTrue, Some, None, if◌then◌else◌};
ghost use Rattle.realm_data.specs.Secrets.{is_otp_key};

use login_base::{Duplicate, Memory, Sequence};
use std::alloc::Global;
use std::marker::Model;

/// The key of a TOTP generator (RFC 6238): 10 to 64 bytes.
#[derive(Debug, Drop)]
pub struct OtpSecret {
    key: Sequence<u8>,
}

impl Model for OtpSecret {
    ghost use Rattle.std.specs.Prelude.{ℕ, List, IsTrue};
    ghost use Rattle.realm_data.specs.Secrets.{is_otp_key};

    ghost Value = { List ℕ };

    ghost view = { λ s. s.key };

    ghost invariant = { λ s. IsTrue (is_otp_key s.key) };
}

impl OtpSecret {
    /// The secret of a key, or none where its length is out of the range.
    pub fn new(key: Sequence<u8>) -> Option<OtpSecret>
        ensures value { result ≡ (if is_otp_key key then Some key else None) }
    {
        if is_otp_key(key.as_slice()) {
            Some(OtpSecret { key })
        } else {
            None
        }
    }

    /// The key, 10 to 64 bytes.
    pub fn key(&self) -> &[u8]
        ensures key { result.now ≡ self.now }
        ensures range { IsTrue (is_otp_key self.now) }
    {
        self.key.as_slice()
    }
}

/// Whether the key has 10 to 64 bytes.
pub(crate) fn is_otp_key(key: &[u8]) -> bool
    ensures { result ≡ is_otp_key key.now }
{
    10 <= key.len() && key.len() <= 64
}

impl Duplicate for OtpSecret {
    fn duplicate(&self, alloc: Global) -> Result<OtpSecret, Memory> {
        Ok(OtpSecret {
            key: self.key.duplicate(alloc)?,
        })
    }
}

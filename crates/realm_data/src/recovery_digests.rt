ghost use Rattle.std.specs.Prelude.{◌≡◌, IsTrue, Some, None, if◌then◌else◌};
ghost use Rattle.std.specs.List.{list_all};
ghost use Rattle.realm_data.specs.Secrets.{is_digest, are_recovery_digests};

use login_base::{Duplicate, Memory, Sequence};
use std::alloc::Global;
use std::marker::Model;

/// The most recovery codes that a user has.
const MOST_CODES: usize = 16;

/// A user's recovery codes, numbered from 1: SHA-256 (FIPS 180-4, section 6.2) of each of them,
/// 1 to 16.
#[derive(Debug, Drop)]
pub struct RecoveryDigests {
    digests: Sequence<[u8; 32]>,
}

impl Model for RecoveryDigests {
    ghost use Rattle.std.specs.Prelude.{ℕ, List, IsTrue};
    ghost use Rattle.realm_data.specs.Secrets.{are_recovery_digests};

    ghost Value = { List (List ℕ) };

    ghost view = { λ r. r.digests };

    ghost invariant = { λ r. IsTrue (are_recovery_digests r.digests) };
}

impl RecoveryDigests {
    /// The codes of these digests, or none where there are none or too many.
    pub fn new(digests: Sequence<[u8; 32]>) -> Option<RecoveryDigests>
        ensures value { result ≡ (if are_recovery_digests digests then Some digests else None) }
    {
        if are_recovery_digests(digests.as_slice()) {
            Some(RecoveryDigests { digests })
        } else {
            None
        }
    }

    /// The digests, in the order of the codes' numbers.
    pub fn digests(&self) -> &[[u8; 32]]
        ensures digests { result.now ≡ self.now }
        ensures range { IsTrue (are_recovery_digests self.now) }
    {
        self.digests.as_slice()
    }
}

fn are_digests(digests: &[[u8; 32]]) -> bool
    ensures { result ≡ list_all is_digest digests.now }
{
    digests.iter().all(|digest| digest.len() == 32)
}

/// Whether they are 1 to 16 digests of SHA-256.
pub(crate) fn are_recovery_digests(digests: &[[u8; 32]]) -> bool
    ensures { result ≡ are_recovery_digests digests.now }
{
    1 <= digests.len() && digests.len() <= MOST_CODES && are_digests(digests)
}

impl Duplicate for RecoveryDigests {
    fn duplicate(&self, alloc: Global) -> Result<RecoveryDigests, Memory> {
        Ok(RecoveryDigests {
            digests: self.digests.duplicate(alloc)?,
        })
    }
}

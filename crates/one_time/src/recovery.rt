//! Recovery codes: numbered from 1, kept as digests, and used in order.

ghost use Rattle.std.specs.Prelude.{◌≡◌};
ghost use Rattle.std.specs.List.{find};
ghost use Rattle.one_time.specs.Verdicts.{has_digest, next_number, next_numbers, spent_numbers, recovery_verdict};

use crate::verdict::{Verdict, verdict_from};
use login_base::Sequence;
use sha2::{Digest, Sha256};

/// The SHA-256 digests of a user's recovery codes, of which the first `spent` were used.
#[derive(Debug, Drop)]
pub struct RecoveryList {
    pub digests: Sequence<[u8; 32]>,
    pub spent: u32,
}

impl RecoveryList {
    /// The number of the code that is asked next, or none where all are spent.
    pub fn next(&self) -> Option<u32>
        ensures value { result ≡ next_number self.now.digests self.now.spent }
    {
        let number = self.spent.checked_add(1)?;
        if number as usize <= self.digests.len() {
            Some(number)
        } else {
            None
        }
    }

    /// The digest is the one with this number.
    fn has(&self, digest: &[u8; 32], number: u64) -> bool
        ensures value { result ≡ has_digest self.now.digests digest.now number }
    {
        match self.digests.get(number.saturating_sub(1) as usize) {
            Some(own) => own.as_slice() == digest.as_slice(),
            None => false,
        }
    }

    /// The next number, where it has this digest.
    fn next_with(&self, digest: &[u8; 32]) -> Option<u64>
        ensures value { result ≡ find (has_digest self.now.digests digest.now)
            (next_numbers self.now.digests self.now.spent) }
    {
        let number = u64::from(self.next()?);
        if self.has(digest, number) {
            Some(number)
        } else {
            None
        }
    }

    /// The least spent number that has this digest.
    fn spent_with(&self, digest: &[u8; 32]) -> Option<u64>
        ensures value { result ≡ find (has_digest self.now.digests digest.now) (spent_numbers self.now.spent) }
    {
        (1..u64::from(self.spent) + 1).find(|number| self.has(digest, *number))
    }

    /// Checks a typed code: it fits the next number alone, and is spent where it is one of those
    /// before it.
    #[tactic(auto, unfolding(crate::specs::Verdicts::recovery_verdict))]
    pub fn check(&self, value: &[u8]) -> Verdict
        ensures verdict { result ≡ recovery_verdict self.now.digests self.now.spent value.now }
    {
        let digest = Sha256::digest(value);
        verdict_from(self.next_with(&digest), self.spent_with(&digest))
    }
}

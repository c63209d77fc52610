ghost use Rattle.std.specs.Prelude.{◌≡◌, ◌≤◌, IsTrue, true, length};
ghost use Rattle.realm_data.specs.Padding.{padded};
ghost use Rattle.realm_data.specs.PasswordHash.{hash_of, is_hash, is_iterations};

use std::marker::Model;

/// The greatest length of a salt, in bytes.
const MOST_SALT: usize = 64;

/// The most iterations of a password's hash.
const MOST_ITERATIONS: u32 = 2_000_000;

/// A password as it is kept: PBKDF2 with HMAC-SHA-256 (RFC 8018, section 5.2) of a salt of 1 to 64
/// bytes, after 1 to 2,000,000 iterations, 32 bytes long.
#[derive(Clone, Copy, Debug)]
pub struct PasswordHash {
    /// The salt, and zeros.
    salt: [u8; 64],
    salt_len: usize,
    iterations: u32,
    digest: [u8; 32],
}

impl Model for PasswordHash {
    ghost use Rattle.std.specs.Prelude.{ℕ, ◌-◌, ◌++◌, List, length, take, replicate};
    ghost use Rattle.realm_data.specs.PasswordHash.{HashedPassword, IsHash};
    ghost use Rattle.realm_data.specs.Padding.{padded, both, length-padded};
    ghost use Rattle.std.proofs.Common.{sym};

    ghost Value = { HashedPassword };

    ghost view = { λ h. record { salt = take h.salt_len h.salt; iterations = h.iterations; digest = h.digest } };

    ghost invariant = { λ h. IsHash h.salt h.salt_len h.iterations };

    ghost inverse = { λ v. record {
      salt = padded v.salt;
      salt_len = length v.salt;
      iterations = v.iterations;
      digest = v.digest;
    } };

    ghost inverse_ok = { λ h ok. both (λ (salt : List ℕ) (len : ℕ). record h { salt = salt; salt_len = len })
        (sym ok.padded) (length-padded h.salt h.salt_len ok.most ok.padded) };
}

/// The text, and zeros.
fn padded(text: &[u8]) -> [u8; 64]
    requires { length text.now ≤ 64 }
    ensures { result ≡ padded text.now }
{
    let mut place = [0u8; 64];
    'bytes: for (i, byte) in text.iter().enumerate() {
        place[i] = *byte;
    }
    place
}

/// Whether a password may be hashed so often: 1 to 2,000,000 times.
pub fn is_iterations(iterations: u32) -> bool
    ensures value { result ≡ is_iterations iterations }
{
    1 <= iterations && iterations <= MOST_ITERATIONS
}

fn is_hash(salt: &[u8], iterations: u32, digest: &[u8; 32]) -> bool
    ensures { result ≡ is_hash (record { salt = salt.now; iterations = iterations; digest = digest.now }) }
{
    1 <= salt.len() && salt.len() <= MOST_SALT && is_iterations(iterations) && digest.len() == 32
}

impl PasswordHash {
    /// A hash of these parts, or none where the salt or the number of iterations is out of its range.
    pub fn new(salt: &[u8], iterations: u32, digest: [u8; 32]) -> Option<PasswordHash>
        ensures value { result ≡ hash_of (record { salt = salt.now; iterations = iterations; digest = digest }) }
    {
        if !is_hash(salt, iterations, &digest) {
            return None;
        }
        Some(PasswordHash {
            salt: padded(salt),
            salt_len: salt.len(),
            iterations,
            digest,
        })
    }

    /// Whether the parts are in their ranges, as they always are.
    pub(crate) fn is_in_range(&self) -> bool
        ensures value { result ≡ is_hash self.now }
        ensures always { IsTrue result }
    {
        is_hash(self.salt(), self.iterations, &self.digest)
    }

    /// The salt, 1 to 64 bytes.
    pub fn salt(&self) -> &[u8]
        ensures salt { result.now ≡ self.now.salt }
    {
        &self.salt[..self.salt_len]
    }

    /// The number of iterations, at least 1.
    pub fn iterations(&self) -> u32
        ensures iterations { result ≡ self.now.iterations }
        ensures least { 1 ≤ result }
        ensures range { is_iterations result ≡ true }
    {
        self.iterations
    }

    /// The derived key (RFC 8018, section 5.2), 32 bytes.
    pub fn digest(&self) -> &[u8; 32]
        ensures digest { result.now ≡ self.now.digest }
    {
        &self.digest
    }
}

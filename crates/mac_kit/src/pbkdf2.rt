//! PBKDF2 (RFC 8018, section 5.2).

ghost use Rattle.std.specs.Prelude.{◌≡◌, ℕ, List, ◌≤◌, ◌<◌, ◌+◌, ◌++◌, ◌^◌, length, take};
ghost use Rattle.mac_kit.specs.Hmac.{AreSizes, HoldsKey, hmac};
ghost use Rattle.mac_kit.specs.Pbkdf2.{block_of, pbkdf2, pbkdf2_sha1, pbkdf2_sha256};

use crate::block_hash::BlockHash;
use crate::hmac::{Keyed, xored};
use sha1::Sha1;
use sha2::Sha256;

/// The block with this number, counted from 1: the xor of `count` rounds.
fn block<const N: usize, const B: usize, H: BlockHash<N, B>>(
    keyed: &Keyed<N, B, H>,
    salt: &[u8],
    count: u32,
    number: u32,
) -> [u8; N]
    requires count { 1 ≤ count }
    requires sizes { AreSizes N B }
    ensures size { length result ≡ N }
    ensures value { (password : List ℕ) → HoldsKey H.holds H.digest_of B keyed.now.inner keyed.now.outer password
        → result ≡ block_of (hmac H.digest_of B) password salt.now count number }
{
    let mut last = keyed.mac(salt, &number.to_be_bytes());
    let mut sum = last;
    'rounds: for _ in 1..count {
        last = keyed.mac(&last, &[]);
        sum = xored(&sum, &last);
    }
    sum
}

/// Writes the bytes from a place on, as far as there is room for them.
fn put(out: &mut [u8], at: usize, bytes: &[u8])
    requires { at ≤ length out.old }
    ensures value { take (at + length bytes.now) out.new ≡ take (length out.old) (take at out.old ++ bytes.now) }
{
    let room = bytes.len().min(out.len() - at);
    'bytes: for i in 0..room {
        out[at + i] = bytes[i];
    }
}

/// Fills `out` with the key that is derived from a password taken in.
fn derive<const N: usize, const B: usize, H: BlockHash<N, B>>(
    keyed: &Keyed<N, B, H>,
    salt: &[u8],
    count: u32,
    out: &mut [u8],
)
    requires count { 1 ≤ count }
    requires room { length out.old ≤ 64 }
    requires sizes { AreSizes N B }
    ensures value { (password : List ℕ) → HoldsKey H.holds H.digest_of B keyed.now.inner keyed.now.outer password
        → out.new ≡ pbkdf2 (hmac H.digest_of B) N password salt.now count (length out.old) }
{
    let blocks = out.len().div_ceil(N);
    'parts: for i in 0..blocks {
        put(out, i * N, &block(keyed, salt, count, i as u32 + 1));
    }
}

/// Fills `out`, of at most 64 bytes, with the key that PBKDF2-HMAC-SHA-1 derives from a password,
/// a salt and a count `c` of iterations, which is at least 1.
#[tactic(auto, unfolding(crate::specs::Pbkdf2::pbkdf2_sha1, crate::specs::Hmac::hmac_sha1))]
pub fn pbkdf2_sha1(password: &[u8], salt: &[u8], c: u32, out: &mut [u8])
    requires iterations { 1 ≤ c }
    requires room { length out.old ≤ 64 }
    ensures value { out.new ≡ pbkdf2_sha1 password.now salt.now c (length out.old) }
{
    derive(&Keyed::<20, 64, Sha1>::of(password), salt, c, out);
}

/// Fills `out`, of at most 64 bytes, with the key that PBKDF2-HMAC-SHA-256 derives from a password,
/// a salt and a count `c` of iterations, which is at least 1.
#[tactic(auto, unfolding(crate::specs::Pbkdf2::pbkdf2_sha256, crate::specs::Hmac::hmac_sha256))]
pub fn pbkdf2_sha256(password: &[u8], salt: &[u8], c: u32, out: &mut [u8])
    requires iterations { 1 ≤ c }
    requires room { length out.old ≤ 64 }
    ensures value { out.new ≡ pbkdf2_sha256 password.now salt.now c (length out.old) }
{
    derive(&Keyed::<32, 64, Sha256>::of(password), salt, c, out);
}

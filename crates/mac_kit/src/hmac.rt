//! HMAC (RFC 2104).

ghost use Rattle.std.specs.Prelude.{◌≡◌, ℕ, List, ◌≤◌, ◌++◌, length, replicate};
ghost use Rattle.mac_kit.specs.Hmac.{xored, filled_block, block_key, AreSizes, HoldsKey, hmac, hmac_sha1, hmac_sha256, hmac_sha512};

use crate::block_hash::BlockHash;
use sha1::Sha1;
use sha2::{Sha256, Sha512};

const INNER_PAD: u8 = 0x36;

const OUTER_PAD: u8 = 0x5c;

/// The xor of both, byte by byte.
pub(crate) fn xored<const N: usize>(first: &[u8; N], second: &[u8; N]) -> [u8; N]
    ensures value { result ≡ xored first.now second.now }
{
    let mut out = [0u8; N];
    'bytes: for i in 0..N {
        out[i] = first[i] ^ second[i];
    }
    out
}

/// The text, filled up with zeros to a block.
#[tactic(auto, unfolding(crate::specs::Hmac::filled_block))]
fn filled<const B: usize>(text: &[u8]) -> [u8; B]
    requires { length text.now ≤ B }
    ensures value { result ≡ filled_block B text.now }
{
    let mut block = [0u8; B];
    'bytes: for (i, byte) in text.iter().enumerate() {
        block[i] = *byte;
    }
    block
}

/// The digest of one text.
fn digest<const N: usize, const B: usize, H: BlockHash<N, B>>(text: &[u8]) -> [u8; N]
    ensures value { result ≡ H.digest_of text.now }
{
    let mut hash = H::begin();
    hash.take(text);
    hash.end()
}

/// The key as one block: a longer one is hashed first.
fn block_key<const N: usize, const B: usize, H: BlockHash<N, B>>(key: &[u8]) -> [u8; B]
    requires { AreSizes N B }
    ensures value { result ≡ block_key H.digest_of B key.now }
{
    if key.len() > B {
        filled(&digest::<N, B, H>(key))
    } else {
        filled(key)
    }
}

/// The state after the key's block, xored with a pad.
fn begun<const N: usize, const B: usize, H: BlockHash<N, B>>(key_block: &[u8; B], pad: u8) -> H
    requires { B ≤ 128 }
    ensures value { H.holds result (xored key_block.now (replicate B pad)) }
{
    let mut hash = H::begin();
    hash.take(&xored(key_block, &[pad; B]));
    hash
}

/// A key taken in: the inner and the outer state after their first block, so that a message of one
/// block costs two further ones.
#[derive(Drop)]
pub(crate) struct Keyed<const N: usize, const B: usize, H> {
    inner: H,
    outer: H,
}

impl<const N: usize, const B: usize, H: BlockHash<N, B>> Keyed<N, B, H> {
    /// The states of a key.
    pub(crate) fn of(key: &[u8]) -> Keyed<N, B, H>
        requires { AreSizes N B }
        ensures value { HoldsKey H.holds H.digest_of B result.inner result.outer key.now }
    {
        let block = block_key::<N, B, H>(key);
        Keyed {
            inner: begun(&block, INNER_PAD),
            outer: begun(&block, OUTER_PAD),
        }
    }

    /// The HMAC of the message that the two parts make.
    #[tactic(auto, using(std::proofs::Common::append_assoc), unfolding(crate::specs::Hmac::hmac))]
    pub(crate) fn mac(&self, first: &[u8], second: &[u8]) -> [u8; N]
        ensures value { (key : List ℕ) → HoldsKey H.holds H.digest_of B self.now.inner self.now.outer key
            → result ≡ hmac H.digest_of B key (first.now ++ second.now) }
    {
        let mut inner = self.inner.copied();
        inner.take(first);
        inner.take(second);
        let mut outer = self.outer.copied();
        outer.take(&inner.end());
        outer.end()
    }
}

/// HMAC-SHA-1 of a message under a key.
#[tactic(auto, unfolding(crate::specs::Hmac::hmac_sha1))]
pub fn hmac_sha1(key: &[u8], message: &[u8]) -> [u8; 20]
    ensures value { result ≡ hmac_sha1 key.now message.now }
{
    Keyed::<20, 64, Sha1>::of(key).mac(message, &[])
}

/// HMAC-SHA-256 of a message under a key.
#[tactic(auto, unfolding(crate::specs::Hmac::hmac_sha256))]
pub fn hmac_sha256(key: &[u8], message: &[u8]) -> [u8; 32]
    ensures value { result ≡ hmac_sha256 key.now message.now }
{
    Keyed::<32, 64, Sha256>::of(key).mac(message, &[])
}

/// HMAC-SHA-512 of a message under a key.
#[tactic(auto, unfolding(crate::specs::Hmac::hmac_sha512))]
pub fn hmac_sha512(key: &[u8], message: &[u8]) -> [u8; 64]
    ensures value { result ≡ hmac_sha512 key.now message.now }
{
    Keyed::<64, 128, Sha512>::of(key).mac(message, &[])
}

//! The offered recovery codes and their digests.

ghost use Rattle.std.specs.Prelude.{◌≡◌, ◌++◌, ◌∷◌, [], ◌≤◌, true, map, IfOk};
ghost use Rattle.sha2.specs.Sha256.{sha256};
ghost use Rattle.realm_data.specs.Secrets.{are_recovery_digests};
ghost use Rattle.offers.specs.Offers.{offered_code, offered_codes, offered_digests};

use login_base::{Memory, Sequence};
use one_time::base32_text;
use realm_data::RecoveryDigests;
use sha2::{Digest, Sha256};
use std::alloc::Global;

/// The letters of a recovery code, of five bits each.
const CODE_LETTERS: usize = 12;

/// SHA-256 of an offer and a number.
fn numbered(offer: &[u8; 32], number: u8) -> [u8; 32]
    ensures value { result ≡ sha256 (offer.now ++ number ∷ []) }
{
    let mut hasher = Sha256::new();
    hasher.update(offer.as_slice());
    hasher.update([number].as_slice());
    hasher.finalize()
}

/// The recovery code of a number: the first letters of the base32 text (RFC 4648, section 6) of
/// SHA-256 of the offer and the number.
#[tactic(auto, unfolding(crate::specs::Offers::offered_code))]
fn offered_code(alloc: Global, offer: &[u8; 32], number: u8) -> Result<Sequence<u8>, Memory>
    ensures ok { IfOk result (λ code. code ≡ offered_code offer.now number) }
{
    let mut letters = base32_text(alloc, &numbered(offer, number))?;
    letters.truncate(CODE_LETTERS);
    Ok(Sequence::from_vec(letters))
}

/// The recovery codes that an offer holds, of the numbers from 1 to `count`.
pub fn offered_codes(
    alloc: Global,
    offer: &[u8; 32],
    count: u32,
) -> Result<Sequence<Sequence<u8>>, Memory>
    requires count { count ≤ 16 }
    ensures ok { IfOk result (λ codes. codes ≡ offered_codes offer.now count) }
{
    let mut codes = Sequence::new(alloc);
    'codes: for before in 0..count {
        codes.push(offered_code(alloc, offer, before as u8 + 1)?)?;
    }
    Ok(codes)
}

/// SHA-256 of each code, in its place.
fn digests_of(alloc: Global, codes: &[Sequence<u8>]) -> Result<Sequence<[u8; 32]>, Memory>
    ensures ok { IfOk result (λ digests. digests ≡ map sha256 codes.now) }
{
    let mut digests = Sequence::new(alloc);
    'codes: for code in codes {
        digests.push(Sha256::digest(code.as_slice()))?;
    }
    Ok(digests)
}

/// The digests of 1 to 16 codes, as a user is kept with them.
fn kept(digests: Sequence<[u8; 32]>) -> RecoveryDigests
    requires { are_recovery_digests digests ≡ true }
    ensures value { result ≡ digests }
{
    match RecoveryDigests::new(digests) {
        Some(kept) => kept,
        None => unreachable!(),
    }
}

/// SHA-256 (FIPS 180-4, section 6.2) of each of the recovery codes that an offer holds, in the
/// order of their numbers.
#[tactic(auto, unfolding(crate::specs::Offers::offered_digests))]
pub fn offered_digests(
    alloc: Global,
    offer: &[u8; 32],
    count: u32,
) -> Result<RecoveryDigests, Memory>
    requires least { 1 ≤ count }
    requires most { count ≤ 16 }
    ensures ok { IfOk result (λ digests. digests ≡ offered_digests offer.now count) }
{
    let codes = offered_codes(alloc, offer, count)?;
    Ok(kept(digests_of(alloc, codes.as_slice())?))
}

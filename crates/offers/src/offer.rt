//! The offer of an ask.

ghost use Rattle.std.specs.Prelude.{◌≡◌};
ghost use Rattle.offers.specs.Offers.{offer_of};

use login_base::Draws;
use sha2::{Digest, Sha256};

/// The offer of an ask: SHA-256 (FIPS 180-4, section 6.2) of its draws, each as eight bytes, the
/// greatest first.
pub fn offer_of(draws: &Draws) -> [u8; 32]
    ensures value { result ≡ offer_of draws.now }
{
    let mut hasher = Sha256::new();
    'draws: for draw in &draws.0 {
        hasher.update(&draw.to_be_bytes());
    }
    hasher.finalize()
}

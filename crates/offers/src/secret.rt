//! The offered secret of one-time codes.

ghost use Rattle.std.specs.Prelude.{◌≡◌, IfOk};
ghost use Rattle.offers.specs.Offers.{offered_key};

use login_base::{Memory, Sequence};
use realm_data::OtpSecret;
use std::alloc::Global;

/// The bytes of an offered secret, as many as RFC 4226 (section 4, R6) recommends.
const KEY_BYTES: usize = 20;

/// The secret of one-time codes that an offer holds: its first 20 bytes.
pub fn offered_secret(alloc: Global, offer: &[u8; 32]) -> Result<OtpSecret, Memory>
    ensures ok { IfOk result (λ secret. secret ≡ offered_key offer.now) }
{
    let key = offer[..KEY_BYTES].to_vec(alloc)?;
    match OtpSecret::new(Sequence::from_vec(key)) {
        Some(secret) => Ok(secret),
        None => unreachable!(),
    }
}

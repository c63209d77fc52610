//! What the page of a required action shows of an offer.

ghost use Rattle.std.specs.Prelude.{◌≡◌, ◌≤◌, ◌∷◌, [], IfOk};
ghost use Rattle.one_time.specs.Base32.{base32_letters};
ghost use Rattle.offers.specs.Offers.{offered_key, shown_for};

use crate::codes::offered_codes;
use crate::secret::offered_secret;
use login_base::{Memory, Sequence};
use one_time::base32_text;
use realm_data::Action;
use std::alloc::Global;

/// The base32 text (RFC 4648, section 6) of the secret that an offer holds, alone.
fn secret_shown(alloc: Global, offer: &[u8; 32]) -> Result<Sequence<Sequence<u8>>, Memory>
    ensures ok { IfOk result (λ shown. shown ≡ base32_letters (offered_key offer.now) ∷ []) }
{
    let secret = offered_secret(alloc, offer)?;
    let text = base32_text(alloc, secret.key())?;
    let mut shown = Sequence::new(alloc);
    shown.push(Sequence::from_vec(text))?;
    Ok(shown)
}

/// The texts that the page of an action shows: of one-time codes the text of the offered secret, of
/// recovery codes each of the offered ones, from number 1 to `count`, and of other actions none.
pub fn shown_for(
    alloc: Global,
    action: Action,
    offer: &[u8; 32],
    count: u32,
) -> Result<Sequence<Sequence<u8>>, Memory>
    requires count { count ≤ 16 }
    ensures ok { IfOk result (λ shown. shown ≡ shown_for action offer.now count) }
{
    match action {
        Action::Terms | Action::VerifyEmail | Action::UpdatePassword => Ok(Sequence::new(alloc)),
        Action::ConfigureOtp => secret_shown(alloc, offer),
        Action::RecoveryCodes => offered_codes(alloc, offer, count),
    }
}

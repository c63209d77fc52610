ghost use Rattle.std.specs.Prelude.{◌≡◌, ◌≤◌};
ghost use Rattle.admin_asks.specs.Account.{count, serials_of};

use facts::{OtpSecret, PasswordHash, RecoveryDigests};
use std::marker::Model;

/// The secrets that an account is given.
#[derive(Drop)]
pub struct GivenSecrets<'a> {
    pub password: Option<PasswordHash>,
    pub otp: &'a Option<OtpSecret>,
    pub recovery: &'a Option<RecoveryDigests>,
}

impl<'a> Model for GivenSecrets<'a> {
    ghost use Rattle.admin_asks.specs.Account.{GivenSecrets};

    ghost Value = { GivenSecrets };

    ghost view = { λ g. record { password = g.password; otp = g.otp.now; recovery = g.recovery.now } };
}

/// 1 where it is there.
pub(crate) fn count<T>(given: &Option<T>) -> u64
    ensures value { result ≡ count given.now }
    ensures most { result ≤ 1 }
{
    match given {
        Some(_) => 1,
        None => 0,
    }
}

impl<'a> GivenSecrets<'a> {
    /// How many serials an account with these secrets takes, its own among them.
    pub fn serials(&self) -> u64
        ensures value { result ≡ serials_of self.now }
        ensures most { result ≤ 4 }
    {
        1 + count(&self.password) + count(self.otp) + count(self.recovery)
    }
}

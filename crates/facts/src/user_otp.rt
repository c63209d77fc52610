use realm_data::OtpSecret;
use std::marker::Model;

/// The secret of one-time codes that a user has, with the serial that it was set with.
#[derive(Drop)]
pub struct UserOtp<'a> {
    pub serial: u64,
    pub secret: &'a OtpSecret,
}

impl<'a> Model for UserOtp<'a> {
    ghost use Rattle.facts.specs.Secrets.{KeptOtp};

    ghost Value = { KeptOtp };

    ghost view = { λ o. record { serial = o.serial; key = o.secret.now } };
}

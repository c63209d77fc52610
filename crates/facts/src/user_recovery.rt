use realm_data::RecoveryDigests;
use std::marker::Model;

/// The recovery codes that a user has, with the serial that they were set with.
#[derive(Drop)]
pub struct UserRecovery<'a> {
    pub serial: u64,
    pub digests: &'a RecoveryDigests,
}

impl<'a> Model for UserRecovery<'a> {
    ghost use Rattle.facts.specs.Secrets.{KeptRecovery};

    ghost Value = { KeptRecovery };

    ghost view = { λ r. record { serial = r.serial; digests = r.digests.now } };
}

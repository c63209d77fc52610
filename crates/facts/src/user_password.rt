use realm_data::PasswordHash;

/// The password that a user has, with the serial that it was set with.
#[derive(Clone, Copy, Debug)]
pub struct UserPassword {
    pub serial: u64,
    pub hash: PasswordHash,
}

ghost use Rattle.std.specs.Prelude.{◌≡◌, true, IfOk, IsTrue};
ghost use Rattle.toml.specs.View.{table_view};
ghost use Rattle.realm_data.specs.PasswordHash.{is_hash};
ghost use Rattle.realm_data.specs.Secrets.{are_recovery_digests};
ghost use Rattle.realm_fields.specs.Reading.{Gives};
ghost use Rattle.realm_fields.specs.Words.{otp_of};
ghost use Rattle.realm_fields.specs.Users.{password_fields};

use crate::fields::{required, small_number_at};
use crate::items::read_few;
use crate::keys::check_keys;
use crate::salt::Salt;
use crate::stop::{Stop, out_of_range};
use crate::values::{Reads, table, text};
use login_base::{Memory, Sequence};
use one_time::{Base32Fault, base32_read};
use realm_data::{OtpSecret, PasswordHash, RecoveryDigests};
use std::alloc::Global;
use toml::{Table, Value};

// ---- passwords

/// A hash whose parts are in their ranges.
fn hash_of(salt: &Salt, iterations: u32, digest: [u8; 32]) -> PasswordHash
    requires { is_hash (record { salt = salt.now; iterations = iterations; digest = digest }) ≡ true }
    ensures value { result ≡ record { salt = salt.now; iterations = iterations; digest = digest } }
    ensures fits { IsTrue (is_hash result) }
{
    match PasswordHash::new(salt.as_slice(), iterations, digest) {
        Some(hash) => hash,
        None => unreachable!(),
    }
}

#[tactic(auto, unfolding(crate::specs::Users::password_fields))]
fn password_fields(alloc: Global, path: &[u8], table: &Table) -> Result<PasswordHash, Stop>
    ensures gives { Gives result (password_fields path.now (table_view table.now)) }
    ensures fits { IfOk result (λ hash. IsTrue (is_hash hash)) }
{
    check_keys(alloc, path, table, &["salt", "iterations", "digest"])?;
    let salt: Salt = required(alloc, path, table, "salt")?;
    let iterations = small_number_at(alloc, path, table, "iterations", 1, 2_000_000)?;
    let digest: [u8; 32] = required(alloc, path, table, "digest")?;
    Ok(hash_of(&salt, iterations, digest))
}

impl Reads for PasswordHash {
    ghost use Rattle.realm_data.specs.PasswordHash.{is_hash};
    ghost use Rattle.realm_fields.specs.Users.{password_in};

    ghost meant = { password_in };

    ghost fits = { is_hash };

    fn read(alloc: Global, path: &[u8], value: &Value) -> Result<PasswordHash, Stop> {
        password_fields(alloc, path, table(alloc, path, value)?)
    }
}

// ---- one-time codes

/// The secret of a base32 text (RFC 4648, section 6), or none where it is no secret's: one has 10
/// to 64 bytes.
pub fn otp_of(alloc: Global, word: &[u8]) -> Result<Option<OtpSecret>, Memory>
    ensures ok { IfOk result (λ secret. secret ≡ otp_of word.now) }
{
    match base32_read(alloc, word) {
        Ok(key) => Ok(OtpSecret::new(Sequence::from_vec(key))),
        Err(Base32Fault::Memory) => Err(Memory),
        Err(Base32Fault::BadLetter { .. } | Base32Fault::BadLength) => Ok(None),
    }
}

impl Reads for OtpSecret {
    ghost use Rattle.realm_data.specs.Secrets.{is_otp_key};
    ghost use Rattle.realm_fields.specs.Reading.{word_in};
    ghost use Rattle.realm_fields.specs.Words.{otp_of};

    ghost meant = { word_in otp_of };

    ghost fits = { is_otp_key };

    fn read(alloc: Global, path: &[u8], value: &Value) -> Result<OtpSecret, Stop> {
        let word = text(alloc, path, value)?;
        match otp_of(alloc, word.as_bytes())? {
            Some(secret) => {
                let _key = secret.key();
                Ok(secret)
            }
            None => out_of_range(alloc, path),
        }
    }
}

// ---- recovery codes

/// The codes of 1 to 16 digests.
fn codes_of(digests: Sequence<[u8; 32]>) -> RecoveryDigests
    requires { are_recovery_digests digests ≡ true }
    ensures value { result ≡ digests }
{
    match RecoveryDigests::new(digests) {
        Some(codes) => codes,
        None => unreachable!(),
    }
}

impl Reads for RecoveryDigests {
    ghost use Rattle.realm_data.specs.Secrets.{are_recovery_digests};
    ghost use Rattle.realm_fields.specs.Reading.{word_in, few_in};
    ghost use Rattle.realm_fields.specs.Words.{digest_of};

    ghost meant = { few_in 1 16 (word_in digest_of) };

    ghost fits = { are_recovery_digests };

    fn read(alloc: Global, path: &[u8], value: &Value) -> Result<RecoveryDigests, Stop> {
        Ok(codes_of(read_few(alloc, path, value, 1, 16)?))
    }
}

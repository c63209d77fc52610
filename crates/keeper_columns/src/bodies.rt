ghost use Rattle.std.specs.Prelude.{◌≡◌, ◌==◌, length, is_some, Some, None, if◌then◌else◌, IfOk};
ghost use Rattle.keeper_columns.specs.Words.{steps_in};
ghost use Rattle.realm_data.specs.Secrets.{is_otp_key};
ghost use Rattle.keeper_columns.specs.Bodies.{password_in, are_digests, digest_count, is_empty, is_kept};

use crate::words::read_steps;
use conditions::SecretKind;
use decimal_text::number;
use login_base::Memory;
use realm_data::PasswordHash;
use std::alloc::Global;

/// The 32 bytes of a digest, where there are so many.
fn digest_in(bytes: &[u8]) -> Option<[u8; 32]>
    ensures { result ≡ (if length bytes.now == 32 then Some bytes.now else None) }
{
    <[u8; 32]>::try_from(bytes).ok()
}

/// A password's hash, as it is kept: four big-endian bytes of iterations, one of the salt's
/// length, the salt and the digest.
#[tactic(auto, unfolding(crate::specs::Bodies::password_in))]
pub fn read_password(body: &[u8]) -> Option<PasswordHash>
    ensures value { result ≡ password_in body.now }
{
    match body {
        [a, b, c, d, count, rest @ ..] => {
            let iterations = u32::from(*a) * 0x0100_0000
                + u32::from(*b) * 0x0001_0000
                + u32::from(*c) * 0x0100
                + u32::from(*d);
            let (salt, digest) = rest.split_at_checked(usize::from(*count))?;
            PasswordHash::new(salt, iterations, digest_in(digest)?)
        }
        _ => None,
    }
}

/// How many digests a list of recovery codes has.
fn digest_count(body: &[u8]) -> usize
    ensures { result ≡ digest_count body.now }
{
    body.len() / 32
}

/// Whether the body is 1 to 16 digests of 32 bytes.
fn are_digests(body: &[u8]) -> bool
    ensures { result ≡ are_digests body.now }
{
    body.len() % 32 == 0 && 1 <= digest_count(body) && digest_count(body) <= 16
}

fn is_otp_key(body: &[u8]) -> bool
    ensures { result ≡ is_otp_key body.now }
{
    10 <= body.len() && body.len() <= 64
}

fn are_steps(alloc: Global, spent: &[u8]) -> Result<bool, Memory>
    ensures { IfOk result (λ kept. kept ≡ is_some (steps_in spent.now)) }
{
    Ok(read_steps(alloc, spent)?.is_some())
}

/// Whether body and spent are in the grammar of the kind.
pub fn is_kept(alloc: Global, kind: SecretKind, body: &[u8], spent: &[u8]) -> Result<bool, Memory>
    ensures ok { IfOk result (λ kept. kept ≡ is_kept kind body.now spent.now) }
{
    match kind {
        SecretKind::Password => Ok(read_password(body).is_some() && spent.is_empty()),
        SecretKind::Otp => Ok(is_otp_key(body) && are_steps(alloc, spent)?),
        SecretKind::Recovery => {
            Ok(are_digests(body) && number(spent, digest_count(body) as u64).is_some())
        }
    }
}

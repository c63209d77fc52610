ghost use Rattle.std.specs.Prelude.{◌≡◌, ◌++◌, IfOk, OnOk};
ghost use Rattle.fact_columns.specs.Bodies.{password_body, recovery_body};

use login_base::{Memory, Sequence};
use realm_data::{OtpSecret, PasswordHash, RecoveryDigests};
use std::alloc::Global;

/// Adds bytes to a body.
fn add(out: &mut Vec<u8>, bytes: &[u8]) -> Result<(), Memory>
    ensures { OnOk result (out.new.items ≡ out.old.items ++ bytes.now) }
{
    out.extend_from_slice(bytes)?;
    Ok(())
}

/// A password's hash: four big-endian bytes of iterations, one of the salt's length, the salt and
/// the digest.
pub fn password_body(alloc: Global, hash: &PasswordHash) -> Result<Sequence<u8>, Memory>
    ensures ok { IfOk result (λ body. body ≡ password_body hash.now) }
{
    let salt = hash.salt();
    let mut out = Vec::new(alloc);
    add(&mut out, &hash.iterations().to_be_bytes())?;
    out.push((salt.len() % 256) as u8)?;
    add(&mut out, salt)?;
    add(&mut out, hash.digest())?;
    Ok(Sequence::from_vec(out))
}

/// The key of one-time codes.
pub fn otp_body(alloc: Global, secret: &OtpSecret) -> Result<Sequence<u8>, Memory>
    ensures ok { IfOk result (λ body. body ≡ secret.now) }
{
    Ok(Sequence::from_vec(Vec::from_slice(alloc, secret.key())?))
}

/// The digests of recovery codes, in order.
pub fn recovery_body(alloc: Global, digests: &RecoveryDigests) -> Result<Sequence<u8>, Memory>
    ensures ok { IfOk result (λ body. body ≡ recovery_body digests.now) }
{
    let mut out = Vec::new(alloc);
    for digest in digests.digests() {
        add(&mut out, digest)?;
    }
    Ok(Sequence::from_vec(out))
}

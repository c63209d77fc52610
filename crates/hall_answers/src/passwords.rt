ghost use Rattle.std.specs.Prelude.{◌≡◌, true, Some, ◌++◌, OnOk};
ghost use Rattle.realm_data.specs.PasswordHash.{is_iterations};
ghost use Rattle.hall_answers.specs.Passwords.{derived, password_facts, IsKeepable};

use facts::{Fact, Finding, PasswordHash, Secret, SecretKind};
use login_base::{Memory, Sequence, TabKey, UserId};

/// A password of these parts, which are in their ranges.
fn kept(salt: &[u8; 16], iterations: u32, digest: &[u8; 32]) -> Option<PasswordHash>
    requires { is_iterations iterations ≡ true }
    ensures { result ≡ Some (record { salt = salt.now; iterations = iterations; digest = digest.now }) }
{
    let _lengths = (salt.len(), digest.len());
    PasswordHash::new(salt, iterations, *digest)
}

/// The password that was derived, as it is kept.
pub fn derived(finding: &Finding) -> Option<PasswordHash>
    requires keepable { IsKeepable finding.now }
    ensures value { result ≡ derived finding.now }
{
    match finding {
        Finding::Derived {
            salt,
            iterations,
            digest,
        } => kept(salt, *iterations, digest),
        Finding::None | Finding::Checked { .. } => None,
    }
}

/// Adds that the password, where there is one, is the user's from now on, set by this tab or by none.
pub fn add_password(
    added: &mut Sequence<Fact>,
    user: UserId,
    serial: u64,
    password: &Option<PasswordHash>,
    by: Option<TabKey>,
) -> Result<(), Memory>
    ensures ok { OnOk result (added.new ≡ added.old ++ password_facts user serial password.now by) }
{
    match password {
        Some(hash) => added.push(Fact::SecretSet {
            user,
            kind: SecretKind::Password,
            serial,
            secret: Secret::Password { hash: *hash },
            by,
        }),
        None => Ok(()),
    }
}

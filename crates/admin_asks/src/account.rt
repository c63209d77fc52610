ghost use Rattle.std.specs.Prelude.{◌≡◌, ◌<◌, ◌-◌, ◌^◌, ◌++◌, Some, OnOk};
ghost use Rattle.admin_asks.specs.Account.{disabled_facts, otp_facts, recovery_facts, secret_facts, action_facts, account_facts};

use crate::given_secrets::{GivenSecrets, count};
use facts::{Action, Fact, OtpSecret, RecoveryDigests, Secret, SecretKind};
use hall_answers::add_password;
use login_base::{Duplicate, Memory, Name, Sequence, UserId};
use std::alloc::Global;

fn add_disabled(added: &mut Sequence<Fact>, user: UserId, enabled: bool) -> Result<(), Memory>
    ensures { OnOk result (added.new ≡ added.old ++ disabled_facts user enabled) }
{
    if enabled {
        Ok(())
    } else {
        added.push(Fact::Disabled { user })
    }
}

/// Adds a secret of one-time codes that no tab sets.
pub(crate) fn add_secret(
    alloc: Global,
    added: &mut Sequence<Fact>,
    user: UserId,
    serial: u64,
    secret: &OtpSecret,
) -> Result<(), Memory>
    ensures { OnOk result (added.new ≡ added.old ++ otp_facts user serial (Some secret.now)) }
{
    added.push(Fact::SecretSet {
        user,
        kind: SecretKind::Otp,
        serial,
        secret: Secret::Otp {
            secret: secret.duplicate(alloc)?,
        },
        by: None,
    })
}

/// Adds a secret of one-time codes, where there is one.
fn add_otp(
    alloc: Global,
    added: &mut Sequence<Fact>,
    user: UserId,
    serial: u64,
    otp: &Option<OtpSecret>,
) -> Result<(), Memory>
    ensures { OnOk result (added.new ≡ added.old ++ otp_facts user serial otp.now) }
{
    match otp {
        Some(secret) => add_secret(alloc, added, user, serial, secret),
        None => Ok(()),
    }
}

/// Adds recovery codes, where there are some, that no tab sets.
fn add_recovery(
    alloc: Global,
    added: &mut Sequence<Fact>,
    user: UserId,
    serial: u64,
    recovery: &Option<RecoveryDigests>,
) -> Result<(), Memory>
    ensures { OnOk result (added.new ≡ added.old ++ recovery_facts user serial recovery.now) }
{
    match recovery {
        Some(digests) => added.push(Fact::SecretSet {
            user,
            kind: SecretKind::Recovery,
            serial,
            secret: Secret::Recovery {
                digests: digests.duplicate(alloc)?,
            },
            by: None,
        }),
        None => Ok(()),
    }
}

/// Adds the secrets, each with the next serial after the last.
fn add_secrets(
    alloc: Global,
    added: &mut Sequence<Fact>,
    user: UserId,
    given: &GivenSecrets<'_>,
) -> Result<(), Memory>
    requires serial { user.0 < 2 ^ 64 - 4 }
    ensures { OnOk result (added.new ≡ added.old ++ secret_facts user user.0 given.now) }
{
    let last = user.0;
    let passwords = count(&given.password);
    let otps = count(given.otp);
    add_password(added, user, last + 1, &given.password, None)?;
    add_otp(alloc, added, user, last + passwords + 1, given.otp)?;
    add_recovery(
        alloc,
        added,
        user,
        last + passwords + otps + 1,
        given.recovery,
    )
}

/// Adds that each of these actions is required of the user, in their order.
fn add_actions(added: &mut Sequence<Fact>, user: UserId, actions: &[Action]) -> Result<(), Memory>
    ensures { OnOk result (added.new ≡ added.old ++ action_facts user actions.now) }
{
    for kind in actions {
        added.push(Fact::ActionSet { user, kind: *kind })?;
    }
    Ok(())
}

/// Adds the facts of a new account: it is put, closed where it isn't enabled, given its secrets,
/// whose serials come after the user's, and its actions.
pub fn add_account(
    alloc: Global,
    added: &mut Sequence<Fact>,
    user: UserId,
    name: &Name,
    roles: &Sequence<Name>,
    enabled: bool,
    given: &GivenSecrets<'_>,
    actions: &[Action],
) -> Result<(), Memory>
    requires serial { user.0 < 2 ^ 64 - 4 }
    ensures ok { OnOk result (added.new
        ≡ added.old ++ account_facts user name.now roles.now enabled given.now actions.now) }
{
    added.push(Fact::UserPut {
        user,
        name: name.duplicate(alloc)?,
        roles: roles.duplicate(alloc)?,
    })?;
    add_disabled(added, user, enabled)?;
    add_secrets(alloc, added, user, given)?;
    add_actions(added, user, actions)
}

ghost use Rattle.std.specs.Prelude.{◌≡◌, ◌<◌, ◌^◌, decimal, IfOk};
ghost use Rattle.facts.specs.Spent.{spent_steps};
ghost use Rattle.fact_columns.specs.Words.{steps_text};
ghost use Rattle.fact_rows.specs.Rows.{secret_with, password_row, otp_row, spent_of, recovery_row, held_row, secret_row, secret_serial};

use crate::found::holder_of;
use crate::holder::Holder;
use crate::keys::is_key;
use conditions::SecretKind;
use fact_columns::{
    column, number_text, otp_body, password_body, recovery_body, secret_word, steps_text,
};
use fact_scans::{codes_spent, otp_of, password_of, recovery_of, spent_steps};
use facts::{Facts, RecoveryDigests, UserOtp, UserPassword, UserRecovery};
use keeper_rows::{SecretRow, Text};
use login_base::{Memory, Sequence, Steps, UserId};
use std::alloc::Global;
use std::sync::ledger::Ledger;

/// A row of these columns.
fn secret_with(
    alloc: Global,
    serial: u64,
    holder: &Holder,
    body: Sequence<u8>,
    spent: Text,
) -> Result<SecretRow, Memory>
    requires { serial < 2 ^ 63 }
    ensures { IfOk result (λ row. row ≡ secret_with serial holder.now.user holder.now.kind body spent) }
{
    Ok(SecretRow {
        serial: serial as i64,
        user: column(holder.user.0),
        kind: Text::new(alloc, secret_word(holder.kind))?,
        body,
        spent,
    })
}

/// The password, where it has the serial.
fn password_row(
    alloc: Global,
    serial: u64,
    user: UserId,
    own: &UserPassword,
) -> Result<Option<SecretRow>, Memory>
    requires { serial < 2 ^ 63 }
    ensures { IfOk result (λ row. row ≡ password_row serial user own.now) }
{
    if own.serial != serial {
        return Ok(None);
    }
    let kind = SecretKind::Password;
    let body = password_body(alloc, &own.hash)?;
    let spent = Text::new(alloc, "")?;
    let row = secret_with(alloc, serial, &Holder { user, kind }, body, spent)?;
    Ok(Some(row))
}

/// The spent steps that are kept of a secret of one-time codes.
fn steps_column<L: Ledger>(
    alloc: Global,
    facts: &Facts<'_>,
    serial: u64,
    steps: &mut Steps<L>,
) -> Result<Text, Memory>
    ensures { IfOk result (λ text. text ≡ steps_text (spent_steps serial facts.now)) }
{
    steps_text(alloc, spent_steps(alloc, facts, serial, steps)?.as_slice())
}

/// The secret of one-time codes, where it has the serial.
fn otp_row<L: Ledger>(
    alloc: Global,
    facts: &Facts<'_>,
    serial: u64,
    user: UserId,
    own: &UserOtp<'_>,
    steps: &mut Steps<L>,
) -> Result<Option<SecretRow>, Memory>
    requires { serial < 2 ^ 63 }
    ensures { IfOk result (λ row. row ≡ otp_row serial user facts.now own.now) }
{
    if own.serial != serial {
        return Ok(None);
    }
    let kind = SecretKind::Otp;
    let body = otp_body(alloc, own.secret)?;
    let spent = steps_column(alloc, facts, serial, steps)?;
    let row = secret_with(alloc, serial, &Holder { user, kind }, body, spent)?;
    Ok(Some(row))
}

/// How many of the codes are spent.
fn spent_of<L: Ledger>(
    facts: &Facts<'_>,
    serial: u64,
    digests: &RecoveryDigests,
    steps: &mut Steps<L>,
) -> u64
    ensures { result ≡ spent_of serial facts.now digests.now }
{
    u64::from(codes_spent(facts, serial, steps)).min(digests.digests().len() as u64)
}

/// The recovery codes, where they have the serial.
fn recovery_row<L: Ledger>(
    alloc: Global,
    facts: &Facts<'_>,
    serial: u64,
    user: UserId,
    own: &UserRecovery<'_>,
    steps: &mut Steps<L>,
) -> Result<Option<SecretRow>, Memory>
    requires { serial < 2 ^ 63 }
    ensures { IfOk result (λ row. row ≡ recovery_row serial user facts.now own.now) }
{
    if own.serial != serial {
        return Ok(None);
    }
    let kind = SecretKind::Recovery;
    let body = recovery_body(alloc, own.digests)?;
    let spent = number_text(alloc, spent_of(facts, serial, own.digests, steps))?;
    let row = secret_with(alloc, serial, &Holder { user, kind }, body, spent)?;
    Ok(Some(row))
}

/// The secret that the holder has now, where it has the serial.
fn held_row<L: Ledger>(
    alloc: Global,
    facts: &Facts<'_>,
    serial: u64,
    holder: &Holder,
    steps: &mut Steps<L>,
) -> Result<Option<SecretRow>, Memory>
    requires { serial < 2 ^ 63 }
    ensures { IfOk result (λ row. row ≡ held_row serial facts.now holder.now.user holder.now.kind) }
{
    let user = holder.user;
    match holder.kind {
        SecretKind::Password => match password_of(facts, user, steps) {
            Some(own) => password_row(alloc, serial, user, &own),
            None => Ok(None),
        },
        SecretKind::Otp => match otp_of(facts, user, steps) {
            Some(own) => otp_row(alloc, facts, serial, user, &own, steps),
            None => Ok(None),
        },
        SecretKind::Recovery => match recovery_of(facts, user, steps) {
            Some(own) => recovery_row(alloc, facts, serial, user, &own, steps),
            None => Ok(None),
        },
    }
}

/// The secret of a serial that a column holds, until it is replaced or taken away.
#[tactic(auto, unfolding(crate::specs::Rows::secret_row))]
pub fn secret_row<L: Ledger>(
    alloc: Global,
    facts: &Facts<'_>,
    serial: u64,
    steps: &mut Steps<L>,
) -> Result<Option<SecretRow>, Memory>
    ensures ok { IfOk result (λ row. row ≡ secret_row serial facts.now) }
{
    if !is_key(serial) {
        return Ok(None);
    }
    match holder_of(facts, serial, steps) {
        Some(holder) => held_row(alloc, facts, serial, &holder, steps),
        None => Ok(None),
    }
}

/// The serial of the secret that a user has of a kind.
#[tactic(auto, unfolding(crate::specs::Rows::secret_serial))]
pub fn secret_serial<L: Ledger>(
    facts: &Facts<'_>,
    user: UserId,
    kind: SecretKind,
    steps: &mut Steps<L>,
) -> Option<u64>
    ensures value { result ≡ secret_serial user kind facts.now }
{
    match kind {
        SecretKind::Password => Some(password_of(facts, user, steps)?.serial),
        SecretKind::Otp => Some(otp_of(facts, user, steps)?.serial),
        SecretKind::Recovery => Some(recovery_of(facts, user, steps)?.serial),
    }
}

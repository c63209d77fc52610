ghost use Rattle.std.specs.Prelude.{◌≡◌, ◌++◌, map, IfOk, OnOk};
ghost use Rattle.keeper_columns.specs.Ranges.{natural};
ghost use Rattle.keeper_columns.specs.Words.{levels_in, secret_kind};
ghost use Rattle.keeper_rules.specs.Misfits.{serial_in, moment_of, spent_step, latest, stamps_of};

use crate::stamp::Stamp;
use conditions::SecretKind;
use keeper_columns::{ReachedLevel, natural, newest_step, read_levels, read_steps, secret_kind};
use keeper_rows::{AccountRow, SecretRow, SessionRow, Tables, Text, TokenRow};
use login_base::{Memory, read_id};
use std::alloc::Global;

/// A row with a stamp.
trait Stamped {
    ghost use Rattle.keeper_rules.specs.declared.stamp.Stamp.{Stamp};

    ghost stamp: { Self → Stamp };

    fn stamp(&self, alloc: Global) -> Result<Stamp, Memory>
        ensures ok { IfOk result (λ s. s ≡ stamp self.now) };
}

/// The serial of an id, or 0 of a text that is none.
fn serial_in(text: &Text) -> u64
    ensures { result ≡ serial_in text.now }
{
    match read_id(text.as_bytes()) {
        Some(id) => id.serial,
        None => 0,
    }
}

/// The moment, or none for a number below 0.
fn moment_of(number: &i64) -> Option<u64>
    ensures { result ≡ moment_of number.now }
{
    match u64::try_from(*number) {
        Ok(moment) => Some(moment),
        Err(_) => None,
    }
}

/// The newest step that is spent of a one-time code.
fn spent_step(alloc: Global, row: &SecretRow) -> Result<Option<u64>, Memory>
    ensures { IfOk result (λ step. step ≡ spent_step (secret_kind row.now.kind) row.now.spent) }
{
    match secret_kind(row.kind.as_bytes()) {
        Some(SecretKind::Otp) => match read_steps(alloc, row.spent.as_bytes())? {
            Some(steps) => Ok(newest_step(steps.as_slice())),
            None => Ok(None),
        },
        _ => Ok(None),
    }
}

/// The latest of a moment and those of levels.
fn latest_of(seen: u64, levels: &[ReachedLevel]) -> u64
    ensures { result ≡ latest seen (Some levels.now) }
{
    levels
        .iter()
        .fold(seen, |moment, level| moment.max(level.moment.millis()))
}

fn latest(alloc: Global, row: &SessionRow) -> Result<u64, Memory>
    ensures { IfOk result (λ moment. moment ≡ latest (natural row.now.seen) (levels_in row.now.levels)) }
{
    let seen = natural(&row.seen);
    match read_levels(alloc, row.levels.as_bytes())? {
        Some(levels) => Ok(latest_of(seen, levels.as_slice())),
        None => Ok(seen),
    }
}

impl Stamped for AccountRow {
    ghost use Rattle.keeper_rules.specs.Misfits.{account_stamp};

    ghost stamp = { account_stamp };

    fn stamp(&self, _alloc: Global) -> Result<Stamp, Memory> {
        Ok(Stamp {
            serial: natural(&self.id),
            moment: moment_of(&self.last),
            step: None,
        })
    }
}

impl Stamped for SecretRow {
    ghost use Rattle.keeper_rules.specs.Misfits.{secret_stamp};

    ghost stamp = { secret_stamp };

    fn stamp(&self, alloc: Global) -> Result<Stamp, Memory> {
        Ok(Stamp {
            serial: natural(&self.serial),
            moment: None,
            step: spent_step(alloc, self)?,
        })
    }
}

impl Stamped for SessionRow {
    ghost use Rattle.keeper_rules.specs.Misfits.{session_stamp};

    ghost stamp = { session_stamp };

    fn stamp(&self, alloc: Global) -> Result<Stamp, Memory> {
        Ok(Stamp {
            serial: serial_in(&self.id),
            moment: Some(latest(alloc, self)?),
            step: None,
        })
    }
}

impl Stamped for TokenRow {
    ghost use Rattle.keeper_rules.specs.Misfits.{token_stamp};

    ghost stamp = { token_stamp };

    fn stamp(&self, _alloc: Global) -> Result<Stamp, Memory> {
        Ok(Stamp {
            serial: serial_in(&self.key),
            moment: None,
            step: None,
        })
    }
}

/// Adds the stamps of rows.
fn add_stamps<R: Stamped>(alloc: Global, stamps: &mut Vec<Stamp>, rows: &[R]) -> Result<(), Memory>
    ensures { OnOk result (stamps.new.items ≡ stamps.old.items ++ map R.stamp rows.now) }
{
    for row in rows {
        stamps.push(row.stamp(alloc)?)?;
    }
    Ok(())
}

/// The stamps of all rows, the tables one after the other.
pub(crate) fn stamps_of(alloc: Global, tables: &Tables) -> Result<Vec<Stamp>, Memory>
    ensures { IfOk result (λ stamps. stamps.items ≡ stamps_of tables.now) }
{
    let mut stamps = Vec::new(alloc);
    add_stamps(alloc, &mut stamps, tables.accounts.as_slice())?;
    add_stamps(alloc, &mut stamps, tables.secrets.as_slice())?;
    add_stamps(alloc, &mut stamps, tables.sessions.as_slice())?;
    add_stamps(alloc, &mut stamps, tables.tokens.as_slice())?;
    Ok(stamps)
}

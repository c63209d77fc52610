ghost use Rattle.std.specs.Prelude.{◌≡◌, ◌<◌, ◌^◌, IfOk, IsTrue};
ghost use Rattle.toml.specs.View.{table_view};
ghost use Rattle.realm_data.specs.Realm.{is_within, are_limits, is_otp_rule, is_policy};
ghost use Rattle.realm_fields.specs.Reading.{Gives, required};
ghost use Rattle.realm_fields.specs.Settings.{session_fields, otp_fields, policy_keys, policy_fields, lone_number, lone_field};

use crate::fields::{number_at, required, small_number_at, value_at};
use crate::keys::check_keys;
use crate::path::key_path;
use crate::stop::{Stop, missing};
use crate::values::{Reads, table};
use lockout::Policy;
use realm_data::{OtpRule, SessionLimits};
use std::alloc::Global;
use toml::{Table, Value};

/// The most seconds that a limit can have: a year.
const YEAR: u64 = 31_536_000;

/// A day's seconds.
const DAY: u64 = 86_400;

#[tactic(auto, unfolding(crate::specs::Settings::session_fields))]
fn session_fields(alloc: Global, path: &[u8], table: &Table) -> Result<SessionLimits, Stop>
    ensures gives { Gives result (session_fields path.now (table_view table.now)) }
    ensures fits { IfOk result (λ s. IsTrue (are_limits s)) }
{
    check_keys(alloc, path, table, &["idle", "max", "tab"])?;
    Ok(SessionLimits {
        idle: number_at(alloc, path, table, "idle", 1, YEAR)?,
        max: number_at(alloc, path, table, "max", 1, YEAR)?,
        tab: number_at(alloc, path, table, "tab", 60, DAY)?,
    })
}

impl Reads for SessionLimits {
    ghost use Rattle.realm_data.specs.Realm.{are_limits};
    ghost use Rattle.realm_fields.specs.Settings.{session_in};

    ghost meant = { session_in };

    ghost fits = { are_limits };

    fn read(alloc: Global, path: &[u8], value: &Value) -> Result<SessionLimits, Stop> {
        session_fields(alloc, path, table(alloc, path, value)?)
    }
}

#[tactic(auto, unfolding(crate::specs::Settings::otp_fields))]
fn otp_fields(alloc: Global, path: &[u8], table: &Table) -> Result<OtpRule, Stop>
    ensures gives { Gives result (otp_fields path.now (table_view table.now)) }
    ensures fits { IfOk result (λ o. IsTrue (is_otp_rule o)) }
{
    check_keys(alloc, path, table, &["digits", "window"])?;
    Ok(OtpRule {
        digits: small_number_at(alloc, path, table, "digits", 6, 8)?,
        window: small_number_at(alloc, path, table, "window", 0, 2)?,
    })
}

impl Reads for OtpRule {
    ghost use Rattle.realm_data.specs.Realm.{is_otp_rule};
    ghost use Rattle.realm_fields.specs.Settings.{otp_rule_in};

    ghost meant = { otp_rule_in };

    ghost fits = { is_otp_rule };

    fn read(alloc: Global, path: &[u8], value: &Value) -> Result<OtpRule, Stop> {
        otp_fields(alloc, path, table(alloc, path, value)?)
    }
}

fn check_policy_keys(alloc: Global, path: &[u8], table: &Table) -> Result<(), Stop>
    ensures { Gives result (policy_keys path.now (table_view table.now)) }
{
    check_keys(
        alloc,
        path,
        table,
        &[
            "mode",
            "max_failures",
            "wait_increment",
            "max_wait",
            "failure_reset",
            "quick_check",
            "quick_wait",
        ],
    )
}

#[tactic(auto, unfolding(crate::specs::Settings::policy_fields))]
fn policy_fields(alloc: Global, path: &[u8], table: &Table) -> Result<Policy, Stop>
    ensures gives { Gives result (policy_fields path.now (table_view table.now)) }
    ensures fits { IfOk result (λ p. IsTrue (is_policy p)) }
{
    check_policy_keys(alloc, path, table)?;
    Ok(Policy {
        mode: required(alloc, path, table, "mode")?,
        max_failures: number_at(alloc, path, table, "max_failures", 1, 1_000)?,
        wait_increment: number_at(alloc, path, table, "wait_increment", 1, DAY)?,
        max_wait: number_at(alloc, path, table, "max_wait", 1, DAY)?,
        failure_reset: number_at(alloc, path, table, "failure_reset", 1, YEAR)?,
        quick_check: number_at(alloc, path, table, "quick_check", 0, 60_000)?,
        quick_wait: number_at(alloc, path, table, "quick_wait", 0, DAY)?,
    })
}

impl Reads for Policy {
    ghost use Rattle.realm_data.specs.Realm.{is_policy};
    ghost use Rattle.realm_fields.specs.Settings.{policy_in};

    ghost meant = { policy_in };

    ghost fits = { is_policy };

    fn read(alloc: Global, path: &[u8], value: &Value) -> Result<Policy, Stop> {
        policy_fields(alloc, path, table(alloc, path, value)?)
    }
}

/// The number at the one key of a table.
fn lone_field(
    alloc: Global,
    path: &[u8],
    table: &Table,
    key: &str,
    least: u64,
    most: u64,
) -> Result<u32, Stop>
    requires { most < 2 ^ 32 }
    ensures gives { Gives result (lone_field key.now least most path.now (table_view table.now)) }
    ensures range { IfOk result (λ n. IsTrue (is_within least most n)) }
{
    check_keys(alloc, path, table, &[key])?;
    small_number_at(alloc, path, table, key, least, most)
}

/// The number at the one key of the table at a key that has to be there.
#[tactic(auto, unfolding(crate::specs::Reading::required))]
pub fn lone_number_at(
    alloc: Global,
    path: &[u8],
    parent: &Table,
    group: &str,
    key: &str,
    least: u64,
    most: u64,
) -> Result<u32, Stop>
    requires { most < 2 ^ 32 }
    ensures gives { Gives result
        (required (lone_number key.now least most) path.now group.now (table_view parent.now)) }
    ensures range { IfOk result (λ n. IsTrue (is_within least most n)) }
{
    let path = key_path(alloc, path, group.as_bytes())?;
    match value_at(parent, group) {
        Some(value) => {
            let table = table(alloc, path.as_slice(), value)?;
            lone_field(alloc, path.as_slice(), table, key, least, most)
        }
        None => missing(alloc, path.as_slice()),
    }
}

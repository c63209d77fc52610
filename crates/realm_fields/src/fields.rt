ghost use Rattle.std.specs.Prelude.{◌≡◌, ◌≤◌, ◌<◌, ◌^◌, IfOk, IfSome, IsTrue};
ghost use Rattle.std.specs.Prelude.{option_map};
ghost use Rattle.toml.specs.Data.{get_member};
ghost use Rattle.toml.specs.View.{view, table_view};
ghost use Rattle.realm_data.specs.Realm.{is_within};
ghost use Rattle.realm_fields.specs.Reading.{Gives, required, optional, number_in};

use crate::path::key_path;
use crate::stop::{Stop, missing};
use crate::values::{Reads, number};
use std::alloc::Global;
use toml::{Table, Value};

/// The value at a key, if it is there.
pub fn value_at<'a>(table: &'a Table, key: &str) -> Option<&'a Value>
    ensures { get_member key.now (table_view table.now) ≡ option_map (λ v. view v.now) result }
{
    table.get(key)
}

/// What stands at a key that has to be there.
#[tactic(auto, unfolding(crate::specs::Reading::required))]
pub fn required<T: Reads>(alloc: Global, path: &[u8], table: &Table, key: &str) -> Result<T, Stop>
    ensures gives { Gives result (required T.meant path.now key.now (table_view table.now)) }
    ensures fits { IfOk result (λ x. IsTrue (T.fits x)) }
{
    let path = key_path(alloc, path, key.as_bytes())?;
    match value_at(table, key) {
        Some(value) => T::read(alloc, path.as_slice(), value),
        None => missing(alloc, path.as_slice()),
    }
}

/// What stands at a key, if it is there.
#[tactic(auto, unfolding(crate::specs::Reading::optional))]
pub fn optional<T: Reads + Drop>(
    alloc: Global,
    path: &[u8],
    table: &Table,
    key: &str,
) -> Result<Option<T>, Stop>
    ensures gives { Gives result (optional T.meant path.now key.now (table_view table.now)) }
    ensures fits { IfOk result (λ found. IfSome found (λ x. IsTrue (T.fits x))) }
{
    match value_at(table, key) {
        Some(value) => {
            let path = key_path(alloc, path, key.as_bytes())?;
            Ok(Some(T::read(alloc, path.as_slice(), value)?))
        }
        None => Ok(None),
    }
}

/// The number at a key that has to be there.
#[tactic(auto, unfolding(crate::specs::Reading::required))]
pub fn number_at(
    alloc: Global,
    path: &[u8],
    table: &Table,
    key: &str,
    least: u64,
    most: u64,
) -> Result<u64, Stop>
    ensures gives { Gives result (required (number_in least most) path.now key.now (table_view table.now)) }
    ensures range { IfOk result (λ n. IsTrue (is_within least most n)) }
    ensures most { IfOk result (λ n. n ≤ most) }
{
    let path = key_path(alloc, path, key.as_bytes())?;
    match value_at(table, key) {
        Some(value) => number(alloc, path.as_slice(), value, least, most),
        None => missing(alloc, path.as_slice()),
    }
}

/// The number at a key that has to be there, where the greatest that it can be is small.
pub fn small_number_at(
    alloc: Global,
    path: &[u8],
    table: &Table,
    key: &str,
    least: u64,
    most: u64,
) -> Result<u32, Stop>
    requires { most < 2 ^ 32 }
    ensures gives { Gives result (required (number_in least most) path.now key.now (table_view table.now)) }
    ensures range { IfOk result (λ n. IsTrue (is_within least most n)) }
{
    Ok(number_at(alloc, path, table, key, least, most)? as u32)
}

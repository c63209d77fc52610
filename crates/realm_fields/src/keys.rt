ghost use Rattle.std.specs.Prelude.{◌≡◌, Err, map};
ghost use Rattle.realm_fields.specs.Paths.{key_path};
ghost use Rattle.std.specs.List.{list_any};
ghost use Rattle.std.specs.Str.{bytes_eq};
ghost use Rattle.toml.specs.View.{table_view};
ghost use Rattle.login_base.specs.Names.{is_name};
ghost use Rattle.realm_fields.specs.Reading.{Gives, is_among, only_keys};

use crate::fault::RealmFault;
use crate::path::key_path;
use crate::stop::{Stop, unknown};
use login_base::is_name;
use std::alloc::Global;
use toml::Table;

fn is_among(keys: &[&str], key: &[u8]) -> bool
    ensures { result ≡ is_among (map (λ k. k.now) keys.now) key.now }
{
    'keys: for known in keys {
        if key == known.as_bytes() {
            return true;
        }
    }
    false
}

/// A key of the table at the path can't be there.
pub fn unknown_key<T>(alloc: Global, path: &[u8], key: &[u8]) -> Result<T, Stop>
    ensures { Gives result (Err (RealmFault.Unknown (key_path path.now key.now))) }
{
    let path = key_path(alloc, path, key)?;
    unknown(alloc, path.as_slice())
}

/// The table at the path has none but these keys; else the least other one is unknown.
#[tactic(auto, unfolding(crate::specs::Reading::only_keys))]
pub fn check_keys(alloc: Global, path: &[u8], table: &Table, keys: &[&str]) -> Result<(), Stop>
    ensures { Gives result (only_keys (is_among (map (λ k. k.now) keys.now)) path.now (table_view table.now)) }
{
    'members: for (key, _value) in table.iter() {
        if !is_among(keys, key.as_bytes()) {
            return unknown_key(alloc, path, key.as_bytes());
        }
    }
    Ok(())
}

/// The keys of the table at the path are names; else the least other one is unknown.
#[tactic(auto, unfolding(crate::specs::Reading::only_keys))]
pub fn check_names(alloc: Global, path: &[u8], table: &Table) -> Result<(), Stop>
    ensures { Gives result (only_keys is_name path.now (table_view table.now)) }
{
    'members: for (key, _value) in table.iter() {
        if !is_name(key.as_bytes()) {
            return unknown_key(alloc, path, key.as_bytes());
        }
    }
    Ok(())
}

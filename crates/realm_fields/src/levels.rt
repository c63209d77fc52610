ghost use Rattle.std.specs.Prelude.{◌≡◌, IfOk, IsTrue, codes};
ghost use Rattle.std.specs.List.{list_all};
ghost use Rattle.toml.specs.View.{view, table_view};
ghost use Rattle.realm_data.specs.Realm.{are_ascending};
ghost use Rattle.realm_fields.specs.Reading.{Gives, listed, optional};
ghost use Rattle.realm_fields.specs.Levels.{level_named, levels_from, levels_in, is_level_in_range};

use crate::fields::value_at;
use crate::keys::{check_names, unknown_key};
use crate::path::key_path;
use crate::stop::Stop;
use crate::values::{number, table};
use login_base::{Sequence, read_name};
use realm_data::AcrLevel;
use std::alloc::Global;
use toml::{Table, Value};

/// The level that a key of the table at the path names.
#[tactic(auto, unfolding(crate::specs::Levels::level_named))]
fn level_named(alloc: Global, path: &[u8], key: &[u8], value: &Value) -> Result<AcrLevel, Stop>
    ensures gives { Gives result (level_named path.now key.now (view value.now)) }
    ensures name { IfOk result (λ acr. acr.name ≡ key.now) }
    ensures range { IfOk result (λ acr. IsTrue (is_level_in_range acr)) }
{
    match read_name(alloc, key)? {
        Some(name) => {
            let _name = name.as_bytes();
            let path = key_path(alloc, path, key)?;
            let level = number(alloc, path.as_slice(), value, 0, 1_000)? as u32;
            Ok(AcrLevel { name, level })
        }
        None => unknown_key(alloc, path, key),
    }
}

/// The levels that the keys of the table at the path name.
fn levels_from(alloc: Global, path: &[u8], table: &Table) -> Result<Sequence<AcrLevel>, Stop>
    ensures gives { Gives result (levels_from path.now (table_view table.now)) }
    ensures range { IfOk result (λ levels. IsTrue (list_all is_level_in_range levels)) }
    ensures order { IfOk result (λ levels. IsTrue (are_ascending (λ a. a.name) levels)) }
{
    let mut levels = Sequence::new(alloc);
    'members: for (key, value) in table.iter() {
        let level = level_named(alloc, path, key.as_bytes(), value)?;
        levels.push(level)?;
    }
    Ok(levels)
}

/// The names of levels, none where the table isn't there.
#[tactic(auto, unfolding(crate::specs::Reading::optional, realm_data::specs::Realm::are_ascending))]
pub fn levels_at(alloc: Global, path: &[u8], parent: &Table) -> Result<Sequence<AcrLevel>, Stop>
    ensures gives { Gives result (listed (optional levels_in path.now (codes "acr") (table_view parent.now))) }
    ensures range { IfOk result (λ levels. IsTrue (list_all is_level_in_range levels)) }
    ensures order { IfOk result (λ levels. IsTrue (are_ascending (λ a. a.name) levels)) }
{
    match value_at(parent, "acr") {
        Some(value) => {
            let path = key_path(alloc, path, b"acr")?;
            let table = table(alloc, path.as_slice(), value)?;
            check_names(alloc, path.as_slice(), table)?;
            levels_from(alloc, path.as_slice(), table)
        }
        None => Ok(Sequence::new(alloc)),
    }
}

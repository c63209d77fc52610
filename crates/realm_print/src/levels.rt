ghost use Rattle.std.specs.Prelude.{◌≡◌, true, IfOk, option_map};
ghost use Rattle.std.specs.List.{list_all};
ghost use Rattle.toml.specs.View.{view, table_view};
ghost use Rattle.realm_data.specs.Realm.{are_ascending};
ghost use Rattle.realm_fields.specs.Levels.{levels_in, is_level_in_range};
ghost use Rattle.realm_print.specs.Levels.{level_members};
ghost use Rattle.realm_print.specs.Printed.{AreListedAs, IfPlain};

use crate::tables::put;
use crate::words::name_text;
use login_base::Memory;
use realm_data::AcrLevel;
use std::alloc::Global;
use toml::{Table, Value};

/// A table with the levels at their names.
fn level_table(alloc: Global, levels: &[AcrLevel]) -> Result<Table, Memory>
    requires { are_ascending (λ a. a.name) levels.now ≡ true }
    ensures { IfOk result (λ t. table_view t ≡ level_members levels.now) }
{
    let mut table = Table::new(alloc);
    'levels: for level in levels {
        put(
            alloc,
            &mut table,
            name_text(&level.name),
            Value::from(level.level),
        )?;
    }
    Ok(table)
}

/// Such a table where there are levels.
pub fn print_levels(alloc: Global, levels: &[AcrLevel]) -> Result<Option<Value>, Memory>
    requires order { are_ascending (λ a. a.name) levels.now ≡ true }
    requires range { list_all is_level_in_range levels.now ≡ true }
    ensures read { IfOk result (λ o. AreListedAs levels_in (option_map (λ v. view v) o) levels.now) }
    ensures plain { IfOk result (λ o. IfPlain 1 (option_map (λ v. view v) o)) }
{
    if levels.is_empty() {
        return Ok(None);
    }
    Ok(Some(Value::Table(level_table(alloc, levels)?)))
}

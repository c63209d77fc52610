ghost use Rattle.std.specs.Prelude.{◌≡◌, OnOk, option_map};
ghost use Rattle.toml.specs.View.{view, table_view};
ghost use Rattle.realm_print.specs.Fields.{with_member, with_some};

use login_base::Memory;
use std::alloc::Global;
use toml::{Table, Value};

/// Puts a key with its value.
pub fn put(alloc: Global, table: &mut Table, key: &str, value: Value) -> Result<(), Memory>
    ensures { OnOk result (table_view table.new ≡ with_member key.now (view value) (table_view table.old)) }
{
    let key = String::from_str(alloc, key)?;
    table.insert(key, value)?;
    Ok(())
}

/// Puts a key where it has a value.
pub fn put_some(
    alloc: Global,
    table: &mut Table,
    key: &str,
    value: Option<Value>,
) -> Result<(), Memory>
    ensures { OnOk result
        (table_view table.new ≡ with_some key.now (option_map (λ v. view v) value) (table_view table.old)) }
{
    match value {
        Some(value) => put(alloc, table, key, value),
        None => Ok(()),
    }
}

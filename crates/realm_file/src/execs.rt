ghost use Rattle.std.specs.Prelude.{◌≡◌, codes};
ghost use Rattle.toml.specs.View.{view, items_view, table_view};
ghost use Rattle.realm_fields.specs.Reading.{Gives};
ghost use Rattle.realm_fields.specs.Paths.{key_path};
ghost use Rattle.realm_file.specs.Execs.{kind_in, check_exec_keys, role_in, level_in, exec_in, execs_in, execs_from, exec_fields, body_fields, steps_at};

use flow_tree::{Body, Cond, Exec};
use realm_fields::{
    ExecKind, Reads, Stop, array, check_keys, exec_kind_of, item_path, key_path, missing,
    number_at, optional, required, small_number_at, table, value_at,
};
use sqlite_items::Items;
use std::alloc::Global;
use toml::{Table, Value};

/// The kind that an execution's table names, if it names one.
fn kind_in(table: &Table) -> Option<ExecKind>
    ensures { result ≡ kind_in (table_view table.now) }
{
    let value = value_at(table, "kind")?;
    let word = value.as_str()?;
    exec_kind_of(word.as_bytes())
}

/// An execution has the keys of its kind alone.
fn check_exec_keys(alloc: Global, path: &[u8], table: &Table) -> Result<(), Stop>
    ensures { Gives result (check_exec_keys path.now (table_view table.now)) }
{
    match kind_in(table) {
        Some(ExecKind::Role) => {
            let keys = ["id", "require", "kind", "role", "negate"];
            check_keys(alloc, path, table, &keys)
        }
        Some(ExecKind::Level) => {
            let keys = ["id", "require", "kind", "level", "age"];
            check_keys(alloc, path, table, &keys)
        }
        Some(ExecKind::Flow) => {
            let keys = ["id", "require", "kind", "steps"];
            check_keys(alloc, path, table, &keys)
        }
        Some(ExecKind::Auth(_)) | Some(ExecKind::Configured) | None => {
            check_keys(alloc, path, table, &["id", "require", "kind"])
        }
    }
}

/// A condition of a role.
#[tactic(auto, unfolding(crate::specs::Execs::role_in))]
fn role_in(alloc: Global, path: &[u8], table: &Table) -> Result<Cond, Stop>
    ensures { Gives result (role_in path.now (table_view table.now)) }
{
    let role = required(alloc, path, table, "role")?;
    let negate = optional(alloc, path, table, "negate")?;
    Ok(Cond::Role {
        role,
        negate: negate.unwrap_or(false),
    })
}

/// A condition of a level.
#[tactic(auto, unfolding(crate::specs::Execs::level_in))]
fn level_in(alloc: Global, path: &[u8], table: &Table) -> Result<Cond, Stop>
    ensures { Gives result (level_in path.now (table_view table.now)) }
{
    let level = small_number_at(alloc, path, table, "level", 1, 1_000)?;
    let age = number_at(alloc, path, table, "age", 0, 31_536_000)?;
    Ok(Cond::Level { level, age })
}

/// The executions of the array at the path.
#[cycle(execs)]
pub fn read_execs(alloc: Global, path: &[u8], value: &Value) -> Result<Items<Exec>, Stop>
    ensures { Gives result (execs_in path.now (view value.now)) }
{
    list_execs(alloc, path, array(alloc, path, value)?)
}

#[cycle(execs)]
fn list_execs(alloc: Global, path: &[u8], values: &[Value]) -> Result<Items<Exec>, Stop>
    ensures { Gives result (execs_from path.now 0 (items_view values.now)) }
{
    let mut execs = Items::new(alloc);
    'values: for (i, value) in values.iter().enumerate() {
        let path = item_path(alloc, path, i)?;
        let exec = read_exec(alloc, path.as_slice(), value)?;
        execs.push(exec)?;
    }
    Ok(execs)
}

#[cycle(execs)]
fn read_exec(alloc: Global, path: &[u8], value: &Value) -> Result<Exec, Stop>
    ensures { Gives result (exec_in path.now (view value.now)) }
{
    exec_fields(alloc, path, table(alloc, path, value)?)
}

#[cycle(execs)]
#[tactic(auto, unfolding(crate::specs::Execs::exec_fields))]
fn exec_fields(alloc: Global, path: &[u8], table: &Table) -> Result<Exec, Stop>
    ensures { Gives result (exec_fields path.now (table_view table.now) (steps_at (table_view table.now))) }
{
    check_exec_keys(alloc, path, table)?;
    let id = required(alloc, path, table, "id")?;
    let requirement = required(alloc, path, table, "require")?;
    let kind = required(alloc, path, table, "kind")?;
    let body = read_body(alloc, path, table, kind)?;
    Ok(Exec {
        id,
        requirement,
        body,
    })
}

#[cycle(execs)]
fn read_body(alloc: Global, path: &[u8], table: &Table, kind: ExecKind) -> Result<Body, Stop>
    ensures { Gives result (body_fields path.now (table_view table.now) (steps_at (table_view table.now)) kind) }
{
    match kind {
        ExecKind::Auth(kind) => Ok(Body::Auth(kind)),
        ExecKind::Configured => Ok(Body::Cond(Cond::Configured)),
        ExecKind::Role => Ok(Body::Cond(role_in(alloc, path, table)?)),
        ExecKind::Level => Ok(Body::Cond(level_in(alloc, path, table)?)),
        ExecKind::Flow => Ok(Body::Sub(read_steps(alloc, path, table)?)),
    }
}

#[cycle(execs)]
fn read_steps(alloc: Global, path: &[u8], table: &Table) -> Result<Items<Exec>, Stop>
    ensures { Gives result (steps_at (table_view table.now) (key_path path.now (codes "steps"))) }
{
    let path = key_path(alloc, path, b"steps")?;
    match value_at(table, "steps") {
        Some(value) => read_execs(alloc, path.as_slice(), value),
        None => missing(alloc, path.as_slice()),
    }
}

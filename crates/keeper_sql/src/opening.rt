ghost use Rattle.std.specs.Prelude.{◌≡◌, IfOk, IsTrue, OnOk};
ghost use Rattle.keeper_rows.specs.Applied.{no_rows};
ghost use Rattle.sqlite.specs.Held.{state};
ghost use Rattle.sqlite.specs.State.{HasCleanDisk, Survives};
ghost use Rattle.sqlite.specs.Steps.{over_memory};
ghost use Rattle.sql_base.specs.Schema.{no_schema, schema as our_schema};
ghost use Rattle.sql_base.specs.Told.{tables_in};
ghost use Rattle.keeper_sql.specs.Committed.{HasOurTables, IsOurs};

use crate::making::make_schema;
use crate::same::are_schemas_same;
use sql_base::Fault;
use sqlite::{Alter, Connection, MemStore};
use sqlite_schema::schema::Schema;
use std::alloc::Global;

/// A database in memory with our tables, which are empty.
fn fresh(alloc: Global) -> Result<Connection<MemStore>, Fault>
    ensures ours { IfOk result (λ conn. (state over_memory conn).now.schema ≡ our_schema) }
{
    match Connection::open_in_memory(alloc) {
        Ok(mut conn) => {
            make_schema(&mut conn)?;
            Ok(conn)
        }
        Err(_) => Err(Fault::Memory),
    }
}

/// Whether nothing was made in a database.
fn is_blank(schema: &Schema) -> bool
    ensures blank { IsTrue result → schema.now ≡ no_schema }
{
    schema.tables.is_empty() && schema.indexes.is_empty() && schema.views.is_empty()
}

/// Makes our tables where nothing was made, and refuses a database that has others.
fn prepare<S: Alter>(alloc: Global, conn: &mut Connection<S>) -> Result<(), Fault>
    ensures ours { HasCleanDisk (state S.Store conn.new) → OnOk result
        (IsTrue (state S.Store conn.new).is_open → HasOurTables (state S.Store conn.new).now) }
    ensures survives { Survives (state S.Store conn.old) (state S.Store conn.new)
        (λ trees. tables_in trees ≡ no_rows) }
{
    if is_blank(conn.schema()) {
        return make_schema(conn);
    }
    let ours = fresh(alloc)?;
    if are_schemas_same(conn.schema(), ours.schema()) {
        Ok(())
    } else {
        Err(Fault::Failed)
    }
}

/// Makes or compares our tables, where they aren't known to be there.
pub(crate) fn ready<S: Alter>(
    alloc: Global,
    conn: &mut Connection<S>,
    known: bool,
) -> Result<(), Fault>
    requires ours { IsTrue known → HasCleanDisk (state S.Store conn.old) → IsTrue (state S.Store conn.old).is_open
        → IsOurs (state S.Store conn.old).now }
    ensures ours { HasCleanDisk (state S.Store conn.new) → OnOk result
        (IsTrue (state S.Store conn.new).is_open → HasOurTables (state S.Store conn.new).now) }
    ensures same { IsTrue known → conn.new ≡ conn.old }
    ensures survives { Survives (state S.Store conn.old) (state S.Store conn.new)
        (λ trees. tables_in trees ≡ no_rows) }
{
    if known { Ok(()) } else { prepare(alloc, conn) }
}

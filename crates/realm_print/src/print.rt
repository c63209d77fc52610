ghost use Rattle.std.specs.Prelude.{◌≡◌, true, Ok, IfOk, OnOk};
ghost use Rattle.toml.specs.View.{table_view};
ghost use Rattle.realm_data.specs.Realm.{is_realm};
ghost use Rattle.realm_file.specs.RealmFile.{realm_in, realm_read};
ghost use Rattle.realm_print.specs.Documents.{PutsHead, PutsSettings, PutsLists};
ghost use Rattle.realm_print.specs.Printed.{ArePlain};

use crate::execs::print_execs;
use crate::levels::print_levels;
use crate::lists::{print_any, print_list};
use crate::settings::lone_number;
use crate::tables::{put, put_some};
use crate::text::document_text;
use crate::values::Prints;
use login_base::{Memory, Sequence};
use realm_data::{Realm, RealmParts};
use std::alloc::Global;
use toml::{Table, Value};

/// Puts the format, the names and the flow.
fn put_head(alloc: Global, table: &mut Table, parts: &RealmParts) -> Result<(), Memory>
    requires { is_realm parts.now ≡ true }
    ensures { OnOk result (PutsHead parts.now (table_view table.old) (table_view table.new)) }
{
    put(alloc, table, "format", Value::from(1_u32))?;
    put(alloc, table, "realm", parts.name.print(alloc)?)?;
    put(alloc, table, "admin_key", parts.admin_key.print(alloc)?)?;
    put(
        alloc,
        table,
        "flow",
        print_execs(alloc, parts.flow.execs())?,
    )
}

/// Puts the tables of numbers.
fn put_settings(alloc: Global, table: &mut Table, parts: &RealmParts) -> Result<(), Memory>
    requires { is_realm parts.now ≡ true }
    ensures { OnOk result (PutsSettings parts.now (table_view table.old) (table_view table.new)) }
{
    put(alloc, table, "session", parts.session.print(alloc)?)?;
    let password = lone_number(alloc, "iterations", parts.iterations)?;
    put(alloc, table, "password", password)?;
    put(alloc, table, "otp", parts.otp.print(alloc)?)?;
    let recovery = lone_number(alloc, "count", parts.recovery_count)?;
    put(alloc, table, "recovery", recovery)?;
    put(alloc, table, "lockout", parts.lockout.print(alloc)?)
}

/// Puts the levels, the clients and the users.
fn put_lists(alloc: Global, table: &mut Table, parts: &RealmParts) -> Result<(), Memory>
    requires { is_realm parts.now ≡ true }
    ensures { OnOk result (PutsLists parts.now (table_view table.old) (table_view table.new)) }
{
    let acr = print_levels(alloc, parts.acr.as_slice())?;
    put_some(alloc, table, "acr", acr)?;
    let clients = print_list(alloc, parts.clients.as_slice())?;
    put(alloc, table, "client", clients)?;
    let users = print_any(alloc, parts.users.as_slice())?;
    put_some(alloc, table, "user", users)
}

/// The document of a realm.
fn realm_table(alloc: Global, parts: &RealmParts) -> Result<Table, Memory>
    requires { is_realm parts.now ≡ true }
    ensures read { IfOk result (λ t. realm_in (table_view t) ≡ Ok parts.now) }
    ensures plain { IfOk result (λ t. ArePlain 80 (table_view t)) }
{
    // Its executions tell that the flow is a tree, as the reader asks.
    let _execs = parts.flow.execs();
    let mut table = Table::new(alloc);
    put_head(alloc, &mut table, parts)?;
    put_settings(alloc, &mut table, parts)?;
    put_lists(alloc, &mut table, parts)?;
    Ok(table)
}

/// The realm as a realm file, which reads back as it.
pub fn print_realm(alloc: Global, realm: &Realm) -> Result<Sequence<u8>, Memory>
    ensures read_back { IfOk result (λ text. realm_read text ≡ Ok realm.now) }
{
    let table = realm_table(alloc, realm.parts())?;
    document_text(alloc, &table)
}

ghost use Rattle.std.specs.Prelude.{◌≡◌, ◌⊎◌, [], codes, Ok, Err, IfOk, IfErr, IsTrue, true};
ghost use Rattle.toml.specs.View.{table_view};
ghost use Rattle.flow_tree.specs.Names.{has_names};
ghost use Rattle.realm_data.specs.Realm.{is_realm, has_levels_in_range};
ghost use Rattle.realm_fields.specs.Reading.{Gives, Lends, required};
ghost use Rattle.realm_file.specs.RealmFile.{check_realm_keys, are_settings, settings_fields, draft_fields, parts_of, realm_in, realm_read, IsDraft};
ghost use Rattle.realm_file.specs.Rules.{is_tree, by_rules};
ghost use Rattle.realm_file.specs.Execs.{execs_in};

use crate::execs::read_execs;
use crate::rules::{check_bound, check_names_apart};
use flow_tree::{Exec, Tree};
use lockout::Policy;
use login_base::{Name, Sequence};
use realm_data::{AcrLevel, Client, OtpRule, Realm, RealmParts, RealmUser, SessionLimits};
use realm_fields::{
    RealmFault, Stop, check_keys, few_at, key_path, levels_at, lone_number_at, missing, number_at,
    required, up_to_at, value_at,
};
use sqlite_items::Items;
use std::alloc::Global;
use toml::Table;

/// What the tables of a realm say, before the rules that go beyond them.
#[derive(Drop)]
struct Draft {
    name: Name,
    admin_key: [u8; 32],
    flow: Items<Exec>,
    settings: Settings,
    acr: Sequence<AcrLevel>,
    clients: Sequence<Client>,
    users: Sequence<RealmUser>,
}

/// The tables of numbers.
#[derive(Clone, Copy)]
struct Settings {
    session: SessionLimits,
    iterations: u32,
    otp: OtpRule,
    recovery_count: u32,
    lockout: Policy,
}

fn check_realm_keys(alloc: Global, table: &Table) -> Result<(), Stop>
    ensures { Gives result (check_realm_keys (table_view table.now)) }
{
    check_keys(
        alloc,
        b"",
        table,
        &[
            "format",
            "realm",
            "admin_key",
            "flow",
            "session",
            "password",
            "otp",
            "recovery",
            "lockout",
            "acr",
            "client",
            "user",
        ],
    )
}

#[tactic(auto, unfolding(realm_fields::specs::Reading::required))]
fn execs_at(alloc: Global, table: &Table) -> Result<Items<Exec>, Stop>
    ensures { Gives result (required execs_in [] (codes "flow") (table_view table.now)) }
{
    let path = key_path(alloc, b"", b"flow")?;
    match value_at(table, "flow") {
        Some(value) => read_execs(alloc, path.as_slice(), value),
        None => missing(alloc, path.as_slice()),
    }
}

fn flow_at(alloc: Global, table: &Table) -> Result<Items<Exec>, Stop>
    ensures gives { Gives result (required execs_in [] (codes "flow") (table_view table.now)) }
    ensures names { IfOk result (λ flow. IsTrue (has_names flow)) }
    ensures range { IfOk result (λ flow. IsTrue (has_levels_in_range flow)) }
{
    execs_at(alloc, table)
}

#[tactic(auto, unfolding(crate::specs::RealmFile::settings_fields))]
fn settings_fields(alloc: Global, table: &Table) -> Result<Settings, Stop>
    ensures gives { Gives result (settings_fields (table_view table.now)) }
    ensures fits { IfOk result (λ s. IsTrue (are_settings s)) }
{
    Ok(Settings {
        session: required(alloc, b"", table, "session")?,
        iterations: lone_number_at(alloc, b"", table, "password", "iterations", 1, 2_000_000)?,
        otp: required(alloc, b"", table, "otp")?,
        recovery_count: lone_number_at(alloc, b"", table, "recovery", "count", 1, 16)?,
        lockout: required(alloc, b"", table, "lockout")?,
    })
}

#[tactic(auto, unfolding(crate::specs::RealmFile::draft_fields))]
fn draft_fields(alloc: Global, table: &Table) -> Result<Draft, Stop>
    ensures gives { Gives result (draft_fields (table_view table.now)) }
    ensures fits { IfOk result IsDraft }
{
    check_realm_keys(alloc, table)?;
    let _format = number_at(alloc, b"", table, "format", 1, 1)?;
    Ok(Draft {
        name: required(alloc, b"", table, "realm")?,
        admin_key: required(alloc, b"", table, "admin_key")?,
        flow: flow_at(alloc, table)?,
        settings: settings_fields(alloc, table)?,
        acr: levels_at(alloc, b"", table)?,
        clients: few_at(alloc, b"", table, "client", 1, 64)?,
        users: up_to_at(alloc, b"", table, "user", 10_000)?,
    })
}

/// The realm of a document that meets the tables, or the first rule that it breaks.
#[tactic(auto, unfolding(crate::specs::Rules::by_rules))]
fn by_rules(alloc: Global, draft: Draft) -> Result<Realm, Stop>
    requires { IsDraft draft }
    ensures { Gives result (by_rules (parts_of draft)) }
{
    let Draft {
        name,
        admin_key,
        flow,
        settings,
        acr,
        clients,
        users,
    } = draft;
    let flow = tree_of(alloc, flow)?;
    check_names_apart(alloc, clients.as_slice(), users.as_slice())?;
    check_bound(alloc, &flow, acr.as_slice(), clients.as_slice())?;
    let parts = RealmParts {
        name,
        admin_key,
        flow,
        session: settings.session,
        iterations: settings.iterations,
        otp: settings.otp,
        recovery_count: settings.recovery_count,
        lockout: settings.lockout,
        acr,
        clients,
        users,
    };
    realm_of(alloc, parts)
}

fn tree_of(alloc: Global, execs: Items<Exec>) -> Result<Tree, Stop>
    ensures rule { Lends (λ _. tt) result (is_tree execs) }
    ensures same { IfOk result (λ tree. tree ≡ execs) }
{
    match Tree::make(alloc, execs) {
        Ok(tree) => Ok(tree),
        Err(fault) => Err(Stop::Fault(RealmFault::Tree(fault))),
    }
}

/// The realm of parts that keep the rules.
fn realm_of(alloc: Global, parts: RealmParts) -> Result<Realm, Stop>
    requires { is_realm parts ≡ true }
    ensures { Gives result (Ok parts) }
{
    match Realm::new(alloc, parts)? {
        Some(realm) => Ok(realm),
        None => unreachable!(),
    }
}

/// The realm that a document describes.
fn realm_in(alloc: Global, table: &Table) -> Result<Realm, Stop>
    ensures { Gives result (realm_in (table_view table.now)) }
{
    by_rules(alloc, draft_fields(alloc, table)?)
}

/// The realm that a realm file describes, or the first fault in the order of the format. Bytes
/// are read whatever their number.
pub fn read_realm(alloc: Global, bytes: &[u8]) -> Result<Realm, RealmFault>
    ensures ok { IfOk result (λ realm. realm_read bytes.now ≡ Ok realm) }
    ensures err { IfErr result (λ fault. (fault ≡ RealmFault.Memory) ⊎ (realm_read bytes.now ≡ Err fault)) }
{
    let table = match toml::table_from_slice(alloc, bytes) {
        Ok(table) => table,
        Err(error) => {
            if error.is_memory() {
                return Err(RealmFault::Memory);
            }
            return Err(RealmFault::NotToml);
        }
    };
    match realm_in(alloc, &table) {
        Ok(realm) => Ok(realm),
        Err(Stop::Memory) => Err(RealmFault::Memory),
        Err(Stop::Fault(fault)) => Err(fault),
    }
}

ghost use Rattle.std.specs.Prelude.{◌≡◌, ◌<◌, ◌≤◌, ◌+◌, ◌-◌, ◌^◌, ◌++◌, length, IfOk, OnOk};
ghost use Rattle.std.specs.Option.{option_copied};
ghost use Rattle.facts.specs.Realms.{last_version};
ghost use Rattle.facts.specs.Serials.{last_stored_serial};
ghost use Rattle.login_base.specs.Steps.{IsBlank};
ghost use Rattle.login_hall.specs.Start.{put_without, IsPutGiven, IsPut, IsStart, realm_facts, secrets_of, new_user_facts, serial_after, users_facts, users_after};

use admin_asks::{GivenSecrets, add_account};
use fact_scans::{account_named, current_realm, last_stored_serial, last_version};
use facts::{Chronicle, Fact, Facts, Realm, RealmUser};
use hall_answers::joined;
use login_base::{Memory, Sequence, Steps, UserId};
use std::alloc::Global;
use std::marker::Model;
use std::sync::ledger::{Blank, Ledger};

/// The facts of a start, for which a hall made room.
#[derive(Drop)]
pub struct Start {
    pub(crate) facts: Sequence<Fact>,
}

impl Model for Start {
    ghost use Rattle.std.specs.Prelude.{◌≡◌, false, List};
    ghost use Rattle.std.specs.Coded.{codes};
    ghost use Rattle.std.specs.List.{list_any};
    ghost use Rattle.flow_tree.specs.contracts.exec.Exec as exec;
    ghost use Rattle.facts.specs.declared.fact.Fact.{Fact};
    ghost use Rattle.login_hall.specs.Start.{is_mark};

    ghost Value = { List Fact };

    ghost coded = { Prim.hlevel (codes, exec.the_row.coded) };

    ghost view = { λ s. s.facts };

    ghost invariant = { λ s. list_any is_mark s.facts ≡ false };
}

/// Without a realm, the one in force stays, and where there is none, the built-in one is put.
fn put_without(alloc: Global, facts: &Facts<'_>) -> Result<Option<Realm>, Memory>
    ensures { IfOk result (λ put. put ≡ put_without facts.now) }
{
    match current_realm(facts) {
        Some(_) => Ok(None),
        None => Ok(Some(Realm::builtin(alloc)?)),
    }
}

/// A realm that is given is put, where it isn't the one in force.
fn put_given(facts: &Facts<'_>, realm: Realm) -> Option<Realm>
    ensures { IsPutGiven facts.now realm result }
{
    match current_realm(facts) {
        Some(current) if realm.is_same(current) => None,
        _ => Some(realm),
    }
}

/// The realm that a start puts, if any.
fn realm_to_put(
    alloc: Global,
    facts: &Facts<'_>,
    realm: Option<Realm>,
) -> Result<Option<Realm>, Memory>
    ensures { IfOk result (λ put. IsPut facts.now realm put) }
{
    match realm {
        Some(realm) => Ok(put_given(facts, realm)),
        None => put_without(alloc, facts),
    }
}

/// The secrets that a user of the realm comes with.
fn secrets_of(given: &RealmUser) -> GivenSecrets<'_>
    ensures { result ≡ secrets_of given.now }
{
    GivenSecrets {
        password: given.password,
        otp: &given.otp,
        recovery: &given.recovery,
    }
}

/// Adds a user of the realm whose name has no account, and answers the last used serial.
fn add_new_user<L: Ledger>(
    alloc: Global,
    facts: &Facts<'_>,
    added: &mut Sequence<Fact>,
    serial: u64,
    given: &RealmUser,
    steps: &mut Steps<L>,
) -> Result<u64, Memory>
    requires { serial < 2 ^ 63 }
    ensures added { OnOk result (added.new ≡ added.old ++ new_user_facts facts.now serial given.now) }
    ensures serial { IfOk result (λ last. last ≡ serial_after facts.now serial given.now) }
    ensures near { IfOk result (λ last. last ≤ serial + 4) }
{
    if account_named(facts, &given.name, steps).is_some() {
        return Ok(serial);
    }
    let secrets = secrets_of(given);
    add_account(
        alloc,
        added,
        UserId(serial + 1),
        &given.name,
        &given.roles,
        given.enabled,
        &secrets,
        given.actions.as_slice(),
    )?;
    Ok(serial + secrets.serials())
}

/// Adds the users of the realm whose names have no accounts.
fn add_users<L: Ledger>(
    alloc: Global,
    facts: &Facts<'_>,
    added: &mut Sequence<Fact>,
    users: &[RealmUser],
    steps: &mut Steps<L>,
) -> Result<(), Memory>
    requires serial { last_stored_serial facts.now ≤ 2 ^ 63 - 2 ^ 20 }
    requires few { length users.now ≤ 10000 }
    ensures { OnOk result (added.new ≡ added.old ++ users_facts facts.now (last_stored_serial facts.now) users.now) }
{
    let mut serial = last_stored_serial(facts);
    for given in users {
        serial = add_new_user(alloc, facts, added, serial, given, steps)?;
    }
    Ok(())
}

/// Adds the realm that is put, with the version after the last one.
fn add_realm(added: &mut Sequence<Fact>, last: u64, put: Option<Realm>) -> Result<(), Memory>
    requires { last ≤ 2 ^ 63 }
    ensures { OnOk result (added.new ≡ added.old ++ realm_facts last put) }
{
    match put {
        Some(realm) => added.push(Fact::RealmPut {
            version: last + 1,
            realm,
        }),
        None => Ok(()),
    }
}

/// The users of the realm that is in force after a start.
fn users_after<'a>(put: &'a Option<Realm>, current: Option<&'a Realm>) -> &'a [RealmUser]
    ensures users { result.now ≡ users_after put.now (option_copied current.entry) }
    ensures few { length result.now ≤ 10000 }
{
    match (put, current) {
        (Some(realm), _) => realm.users(),
        (None, Some(realm)) => realm.users(),
        (None, None) => &[],
    }
}

/// The facts that a start adds, on a ledger of its own.
#[tactic(auto, unfolding(crate::specs::Start::start_facts))]
pub(crate) fn start_facts<L: Ledger>(
    alloc: Global,
    chronicle: &Chronicle,
    realm: Option<Realm>,
    blank: Blank,
) -> Result<Sequence<Fact>, Memory>
    requires stored { last_stored_serial chronicle.now.list ≤ 2 ^ 63 - 2 ^ 20 }
    requires version { last_version chronicle.now.list ≤ 2 ^ 63 - 2 ^ 20 }
    requires blank { IsBlank blank L.name L.parts }
    ensures { IfOk result (λ added. IsStart chronicle.now.list realm added) }
{
    let mut steps = Steps::<L>::new(blank);
    let facts = Facts::of(chronicle);
    let put = realm_to_put(alloc, &facts, realm)?;
    let mut users = Sequence::new(alloc);
    let given = users_after(&put, current_realm(&facts));
    add_users(alloc, &facts, &mut users, given, &mut steps)?;
    let mut added = Sequence::new(alloc);
    add_realm(&mut added, last_version(&facts), put)?;
    joined(added, users)
}

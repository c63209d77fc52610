use crate::{
    AcrLevel, Action, Client, OtpRule, OtpSecret, PasswordHash, Realm, RealmParts, RealmUser,
    RecoveryDigests, SessionLimits,
};
use flow_tree::{Body, Cond, Exec, Kind, Requirement, Tree};
use lockout::{Mode, Policy};
use login_base::{Duplicate, Memory, Name, Sequence, read_name};
use sqlite_items::Items;
use std::alloc::{AllocError, Global};
use std::test::Fail;

// ---- parts to try

/// What a sample has: a test has no other error.
fn some<T: Drop>(sample: Option<T>) -> Result<T, Memory> {
    match sample {
        Some(sample) => Ok(sample),
        None => Err(Memory),
    }
}

fn name(alloc: Global, text: &str) -> Result<Name, Memory> {
    some(read_name(alloc, text.as_bytes())?)
}

/// `n` and five digits.
fn numbered(alloc: Global, number: usize) -> Result<Name, Memory> {
    let mut text = Vec::from_slice(alloc, b"n")?;
    for place in [10_000, 1_000, 100, 10, 1] {
        text.push(b"0123456789"[number / place % 10])?;
    }
    some(read_name(alloc, text.as_slice())?)
}

fn exec(alloc: Global, id: &str, requirement: Requirement, body: Body) -> Result<Exec, Memory> {
    Ok(Exec {
        id: name(alloc, id)?,
        requirement,
        body,
    })
}

fn flow(alloc: Global, requirement: Requirement, body: Body) -> Result<Tree, Memory> {
    let mut execs = Items::new(alloc);
    execs.push(exec(alloc, "only", requirement, body)?)?;
    some(Tree::make(alloc, execs).ok())
}

/// A flow of one authenticator.
fn flow_of(alloc: Global, kind: Kind) -> Result<Tree, Memory> {
    flow(alloc, Requirement::Required, Body::Auth(kind))
}

/// A subflow with a condition and a form.
fn flow_with(alloc: Global, requirement: Requirement, cond: Cond) -> Result<Tree, Memory> {
    let mut execs = Items::new(alloc);
    execs.push(exec(alloc, "asked", Requirement::Required, Body::Cond(cond))?)?;
    execs.push(exec(alloc, "form", Requirement::Required, Body::Auth(Kind::Form))?)?;
    flow(alloc, requirement, Body::Sub(execs))
}

/// A flow with a live condition of this level and age.
fn flow_at(alloc: Global, level: u32, age: u64) -> Result<Tree, Memory> {
    flow_with(alloc, Requirement::Conditional, Cond::Level { level, age })
}

fn user(alloc: Global, name: Name) -> RealmUser {
    RealmUser {
        name,
        roles: Sequence::new(alloc),
        enabled: true,
        password: None,
        otp: None,
        recovery: None,
        actions: Sequence::new(alloc),
    }
}

const LOCKOUT: Policy = Policy {
    mode: Mode::Permanent,
    max_failures: 30,
    wait_increment: 31,
    max_wait: 32,
    failure_reset: 33,
    quick_check: 34,
    quick_wait: 35,
};

/// Parts that keep each rule, with a client and no user.
fn parts(alloc: Global, flow: Tree) -> Result<RealmParts, Memory> {
    let mut clients = Sequence::new(alloc);
    clients.push(Client {
        id: name(alloc, "shop")?,
        level: 0,
    })?;
    Ok(RealmParts {
        name: name(alloc, "garden")?,
        admin_key: [7; 32],
        flow,
        session: SessionLimits {
            idle: 20,
            max: 21,
            tab: 62,
        },
        iterations: 23,
        otp: OtpRule {
            digits: 7,
            window: 2,
        },
        recovery_count: 9,
        lockout: LOCKOUT,
        acr: Sequence::new(alloc),
        clients,
        users: Sequence::new(alloc),
    })
}

fn plain_parts(alloc: Global) -> Result<RealmParts, Memory> {
    parts(alloc, flow_of(alloc, Kind::Form)?)
}

fn is_accepted(alloc: Global, parts: RealmParts) -> Result<bool, Memory> {
    match Realm::new(alloc, parts) {
        Ok(realm) => Ok(realm.is_some()),
        Err(Memory) => Err(Memory),
    }
}

// ---- the rules

/// A number that has a range.
#[derive(Clone, Copy)]
enum Number {
    Idle,
    Max,
    Tab,
    Iterations,
    Digits,
    Window,
    RecoveryCount,
    MaxFailures,
    WaitIncrement,
    MaxWait,
    FailureReset,
    QuickCheck,
    QuickWait,
}

fn set(parts: &mut RealmParts, number: Number, value: u32) {
    let long = u64::from(value);
    match number {
        Number::Idle => parts.session.idle = long,
        Number::Max => parts.session.max = long,
        Number::Tab => parts.session.tab = long,
        Number::Iterations => parts.iterations = value,
        Number::Digits => parts.otp.digits = value,
        Number::Window => parts.otp.window = value,
        Number::RecoveryCount => parts.recovery_count = value,
        Number::MaxFailures => parts.lockout.max_failures = long,
        Number::WaitIncrement => parts.lockout.wait_increment = long,
        Number::MaxWait => parts.lockout.max_wait = long,
        Number::FailureReset => parts.lockout.failure_reset = long,
        Number::QuickCheck => parts.lockout.quick_check = long,
        Number::QuickWait => parts.lockout.quick_wait = long,
    }
}

/// Whether parts with this number are a realm.
fn takes(alloc: Global, number: Number, value: u32) -> Result<bool, Memory> {
    let mut parts = plain_parts(alloc)?;
    set(&mut parts, number, value);
    is_accepted(alloc, parts)
}

/// The least and the greatest of each number.
const RANGES: [(Number, u32, u32); 13] = [
    (Number::Idle, 1, 31_536_000),
    (Number::Max, 1, 31_536_000),
    (Number::Tab, 60, 86_400),
    (Number::Iterations, 1, 2_000_000),
    (Number::Digits, 6, 8),
    (Number::Window, 0, 2),
    (Number::RecoveryCount, 1, 16),
    (Number::MaxFailures, 1, 1_000),
    (Number::WaitIncrement, 1, 86_400),
    (Number::MaxWait, 1, 86_400),
    (Number::FailureReset, 1, 31_536_000),
    (Number::QuickCheck, 0, 60_000),
    (Number::QuickWait, 0, 86_400),
];

#[test]
fn a_number_out_of_its_range_is_refused(rt: HostRuntime) -> Result<(), Fail> {
    for (number, least, greatest) in RANGES {
        assert!(rt; takes(rt.alloc(), number, least)?);
        assert!(rt; takes(rt.alloc(), number, greatest)?);
        assert!(rt; least == 0 || !takes(rt.alloc(), number, least.saturating_sub(1))?);
        assert!(rt; !takes(rt.alloc(), number, greatest.saturating_add(1))?);
    }
    Ok(())
}

/// Whether parts with a condition of the first level, of this age, and a client of the second level and an `acr` of
/// the third are a realm.
fn binds(
    alloc: Global,
    live: u32,
    age: u64,
    client_level: u32,
    level: u32,
) -> Result<bool, Memory> {
    let mut parts = parts(alloc, flow_at(alloc, live, age)?)?;
    parts.clients.push(Client {
        id: name(alloc, "club")?,
        level: client_level,
    })?;
    parts.acr.push(AcrLevel {
        name: name(alloc, "gold")?,
        level,
    })?;
    is_accepted(alloc, parts)
}

/// A condition's level and age, a client's level and that of an `acr`, and whether they are taken.
const LEVELS: [(u32, u64, u32, u32, bool); 12] = [
    (0, 1, 0, 0, false),
    (1, 0, 0, 0, true),
    (1_000, 31_536_000, 0, 0, true),
    (1_001, 1, 0, 0, false),
    (1_000, 31_536_001, 0, 0, false),
    (3, 60, 3, 3, true),
    (1_000, 60, 1_000, 1_000, true),
    (3, 60, 2, 3, false),
    (3, 60, 3, 4, false),
    (1_000, 60, 1_001, 0, false),
    (1_000, 60, 0, 1_001, false),
    (1_001, 60, 1_001, 0, false),
];

#[test]
fn a_level_needs_a_live_condition_in_its_range(rt: HostRuntime) -> Result<(), Fail> {
    for (live, age, client_level, level, want) in LEVELS {
        let taken = binds(rt.alloc(), live, age, client_level, level)?;
        assert_eq!(rt; taken, want);
    }
    Ok(())
}

/// Whether a level counts as live in a subflow of this requirement.
fn binds_in(alloc: Global, requirement: Requirement) -> Result<bool, Memory> {
    let flow = flow_with(alloc, requirement, Cond::Level { level: 1, age: 60 })?;
    let mut parts = parts(alloc, flow)?;
    parts.clients.push(Client {
        id: name(alloc, "club")?,
        level: 1,
    })?;
    is_accepted(alloc, parts)
}

#[test]
fn only_a_conditional_subflow_makes_a_level_live(rt: HostRuntime) -> Result<(), Fail> {
    assert!(rt; binds_in(rt.alloc(), Requirement::Conditional)?);
    assert!(rt; !binds_in(rt.alloc(), Requirement::Disabled)?);
    assert!(rt; !binds_in(rt.alloc(), Requirement::Required)?);
    Ok(())
}

/// What has names that are compared.
#[derive(Clone, Copy)]
enum Named {
    Levels,
    Clients,
    Users,
}

fn add(alloc: Global, parts: &mut RealmParts, named: Named, name: Name) -> Result<(), Memory> {
    match named {
        Named::Levels => parts.acr.push(AcrLevel { name, level: 0 }),
        Named::Clients => parts.clients.push(Client { id: name, level: 0 }),
        Named::Users => parts.users.push(user(alloc, name)),
    }
}

/// Whether parts with these names, of a byte each, are a realm.
fn takes_names(alloc: Global, named: Named, names: &str) -> Result<bool, Memory> {
    let mut parts = plain_parts(alloc)?;
    for byte in names.as_bytes() {
        if let Some(name) = read_name(alloc, &[*byte])? {
            add(alloc, &mut parts, named, name)?;
        }
    }
    is_accepted(alloc, parts)
}

/// Names, whether a realm takes them for levels, and whether for clients and users.
const NAMES: [(&str, bool, bool); 8] = [
    ("", true, true),
    ("9abz", true, true),
    ("ba", false, true),
    ("acb", false, true),
    ("aa", false, false),
    ("abbc", false, false),
    ("abca", false, false),
    ("cabb", false, false),
];

#[test]
fn levels_ascend_and_clients_and_users_are_apart(rt: HostRuntime) -> Result<(), Fail> {
    let alloc = rt.alloc();
    for (names, ascend, are_apart) in NAMES {
        assert_eq!(rt; takes_names(alloc, Named::Levels, names)?, ascend);
        assert_eq!(rt; takes_names(alloc, Named::Clients, names)?, are_apart);
        assert_eq!(rt; takes_names(alloc, Named::Users, names)?, are_apart);
    }
    Ok(())
}

/// Whether parts with so many of these are a realm.
fn takes_count(alloc: Global, named: Named, count: usize) -> Result<bool, Memory> {
    let mut parts = plain_parts(alloc)?;
    if matches!(named, Named::Clients) {
        parts.clients = Sequence::new(alloc);
    }
    for number in 0..count {
        add(alloc, &mut parts, named, numbered(alloc, number)?)?;
    }
    is_accepted(alloc, parts)
}

#[test]
fn clients_are_1_to_64(rt: HostRuntime) -> Result<(), Fail> {
    let alloc = rt.alloc();
    for (count, want) in [(0, false), (1, true), (64, true), (65, false)] {
        assert_eq!(rt; takes_count(alloc, Named::Clients, count)?, want);
    }
    Ok(())
}

#[test]
fn users_are_10_000_at_most(rt: HostRuntime) -> Result<(), Fail> {
    assert!(rt; takes_count(rt.alloc(), Named::Users, 10_000)?);
    assert!(rt; !takes_count(rt.alloc(), Named::Users, 10_001)?);
    Ok(())
}

// ---- secrets

/// A secret of so many bytes, if it is one.
fn secret(alloc: Global, count: usize) -> Result<Option<OtpSecret>, Memory> {
    let mut key = Sequence::new(alloc);
    for _ in 0..count {
        key.push(7)?;
    }
    Ok(OtpSecret::new(key))
}

/// So many codes, if a user may have them.
fn codes(alloc: Global, count: usize) -> Result<Option<RecoveryDigests>, Memory> {
    let mut digests = Sequence::new(alloc);
    for _ in 0..count {
        digests.push([7; 32])?;
    }
    Ok(RecoveryDigests::new(digests))
}

/// A hash with a salt of so many bytes, if there is one.
fn hash(count: usize, iterations: u32) -> Option<PasswordHash> {
    let salt = [7; 80];
    PasswordHash::new(&salt[..count.min(80)], iterations, [7; 32])
}

fn is_secret(alloc: Global, count: usize) -> Result<bool, Memory> {
    Ok(secret(alloc, count)?.is_some())
}

fn are_codes(alloc: Global, count: usize) -> Result<bool, Memory> {
    Ok(codes(alloc, count)?.is_some())
}

#[test]
fn keys_have_10_to_64_bytes(rt: HostRuntime) -> Result<(), Fail> {
    for (count, want) in [(9, false), (10, true), (64, true), (65, false)] {
        assert_eq!(rt; is_secret(rt.alloc(), count)?, want);
    }
    Ok(())
}

#[test]
fn recovery_codes_are_1_to_16(rt: HostRuntime) -> Result<(), Fail> {
    for (count, want) in [(0, false), (1, true), (16, true), (17, false)] {
        assert_eq!(rt; are_codes(rt.alloc(), count)?, want);
    }
    Ok(())
}

#[test]
fn a_hash_has_ranges(rt: HostRuntime) {
    let rows = [
        (0, 1, false),
        (1, 1, true),
        (64, 1, true),
        (65, 1, false),
        (4, 0, false),
        (4, 2_000_000, true),
        (4, 2_000_001, false),
    ];
    for (count, iterations, want) in rows {
        assert_eq!(rt; hash(count, iterations).is_some(), want);
    }
}

// ---- realms

/// A user with a password and a role.
fn ann(alloc: Global) -> Result<RealmUser, Memory> {
    let mut ann = user(alloc, name(alloc, "ann")?);
    ann.password = hash(4, 100);
    ann.roles.push(name(alloc, "boss")?)?;
    Ok(ann)
}

/// A realm with each part, in which a user has this key.
fn full(alloc: Global, key: usize, admin_key: [u8; 32]) -> Result<Realm, Memory> {
    let mut user = ann(alloc)?;
    user.otp = secret(alloc, key)?;
    user.recovery = codes(alloc, 2)?;
    user.actions.push(Action::Terms)?;
    let mut parts = parts(alloc, flow_at(alloc, 3, 60)?)?;
    parts.admin_key = admin_key;
    parts.users.push(user)?;
    some(Realm::new(alloc, parts)?)
}

fn shown(alloc: Global, realm: &Realm) -> Result<String, AllocError> {
    format!(in alloc; "{realm:?}")
}

#[test]
fn a_copy_is_the_same_and_a_log_shows_no_secret(rt: HostRuntime) -> Result<(), Fail> {
    let alloc = rt.alloc();
    let realm = full(alloc, 10, [7; 32])?;
    assert!(rt; realm.is_same(&realm.duplicate(alloc)?));
    for other in [full(alloc, 11, [7; 32])?, full(alloc, 10, [8; 32])?] {
        assert!(rt; !realm.is_same(&other));
        assert_eq!(rt; shown(alloc, &realm)?, shown(alloc, &other)?);
    }
    let builtin = Realm::builtin(alloc)?;
    assert!(rt; !builtin.is_same(&realm));
    assert_eq!(rt; builtin.recovery_count(), 8);
    assert_eq!(rt; builtin.tab_life(), 1_800_000);
    Ok(())
}

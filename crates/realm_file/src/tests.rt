use crate::{fault_text, read_realm};
use login_base::{Memory, Sequence};
use realm_data::{Action, Realm};
use std::alloc::Global;
use std::test::Fail;

/// The built-in realm, a key of its top a line.
const LINES: [&str; 10] = [
    "format = 1\n",
    "realm = \"builtin\"\n",
    "admin_key = \"0000000000000000000000000000000000000000000000000000000000000000\"\n",
    "flow = [{ id = \"form\", require = \"required\", kind = \"form\" }]\n",
    "session = { idle = 1800, max = 36000, tab = 1800 }\n",
    "password = { iterations = 100 }\n",
    "otp = { digits = 6, window = 1 }\n",
    "recovery = { count = 8 }\n",
    "lockout = { mode = \"temporary\", max_failures = 3, wait_increment = 60, max_wait = 900, failure_reset = 43200, quick_check = 1000, quick_wait = 60 }\n",
    "client = [{ id = \"app\", level = 0 }]\n",
];

/// The built-in realm with another line at a place.
fn text_with(alloc: Global, place: usize, other: &str) -> Result<Vec<u8>, Memory> {
    let mut text = Vec::new(alloc);
    for (i, line) in LINES.iter().enumerate() {
        let line = if i == place { other } else { *line };
        text.extend_from_slice(line.as_bytes())?;
    }
    Ok(text)
}

/// The realm's name, or its fault in words.
fn words(alloc: Global, bytes: &[u8]) -> Result<Sequence<u8>, Memory> {
    match read_realm(alloc, bytes) {
        Ok(realm) => {
            let name = realm.parts().name.as_bytes();
            Ok(Sequence::from_vec(Vec::from_slice(alloc, name)?))
        }
        Err(fault) => fault_text(alloc, &fault),
    }
}

/// A line, the place where it stands instead, and what comes of it.
const FAULTS: [(usize, &str, &str); 10] = [
    (0, "=\n", "NotToml"),
    (1, "", "Missing realm"),
    (0, "format = 1\n\"\" = 2\n", "Unknown"),
    (
        4,
        "session = { idle = 0, max = 36000, life = 1 }\n",
        "Unknown session.life",
    ),
    (
        3,
        "flow = [{ id = \"a\", require = \"required\", kind = \"flow\", steps = [1] }]\n",
        "WrongKind flow[0].steps[0]",
    ),
    (
        5,
        "password = { iterations = 2000001 }\n",
        "OutOfRange password.iterations",
    ),
    (
        3,
        "flow = [{ id = \"a\", require = \"required\", kind = \"form\" }, { id = \"a\", require = \"required\", kind = \"form\" }]\n",
        "Tree DoubleId a",
    ),
    (
        9,
        "client = [{ id = \"app\", level = 1 }, { id = \"app\", level = 0 }]\n",
        "Doubled client[1].id",
    ),
    (
        9,
        "client = [{ id = \"app\", level = 1 }]\n",
        "UnboundLevel client[0].level",
    ),
    (9, "client = [{ id = \"desk\", level = 0 }]\n", "builtin"),
];

#[test]
fn each_fault(rt: HostRuntime) -> Result<(), Fail> {
    for (place, line, due) in FAULTS {
        let text = text_with(rt.alloc(), place, line)?;
        let found = words(rt.alloc(), text.as_slice())?;
        assert_eq!(rt; found.as_slice(), due.as_bytes());
    }
    Ok(())
}

#[test]
fn built_in_realm(rt: HostRuntime) -> Result<(), Fail> {
    let text = text_with(rt.alloc(), LINES.len(), "")?;
    let builtin = Realm::builtin(rt.alloc())?;
    match read_realm(rt.alloc(), text.as_slice()) {
        Ok(realm) => assert!(rt; realm.is_same(&builtin)),
        Err(_) => assert!(rt; false),
    }
    Ok(())
}

/// An office: a cookie or a form, a second factor for the higher level, and no guests.
const OFFICE: &str = "\
format = 1\n\
realm = \"office\"\n\
admin_key = \"ba7816bf8f01cfea414140de5dae2223b00361a396177a9cb410ff61f20015ad\"\n\
flow = [\n\
{ id = \"cookie\", require = \"alternative\", kind = \"cookie\" },\n\
{ id = \"forms\", require = \"alternative\", kind = \"flow\", steps = [\n\
{ id = \"l1\", require = \"conditional\", kind = \"flow\", steps = [\n\
{ id = \"l1-when\", require = \"required\", kind = \"level\", level = 1, age = 36000 },\n\
{ id = \"form\", require = \"required\", kind = \"form\" },\n\
] },\n\
{ id = \"guests\", require = \"conditional\", kind = \"flow\", steps = [\n\
{ id = \"guests-when\", require = \"required\", kind = \"role\", role = \"guest\" },\n\
{ id = \"no\", require = \"required\", kind = \"deny\" },\n\
] },\n\
{ id = \"l2\", require = \"conditional\", kind = \"flow\", steps = [\n\
{ id = \"l2-when\", require = \"required\", kind = \"level\", level = 2, age = 300 },\n\
{ id = \"second\", require = \"required\", kind = \"flow\", steps = [\n\
{ id = \"otp\", require = \"alternative\", kind = \"otp\" },\n\
{ id = \"rec\", require = \"alternative\", kind = \"recovery\" },\n\
] },\n\
] },\n\
] },\n\
]\n\
[session]\n\
idle = 1800\n\
max = 36000\n\
tab = 1800\n\
[password]\n\
iterations = 1\n\
[otp]\n\
digits = 6\n\
window = 1\n\
[recovery]\n\
count = 12\n\
[lockout]\n\
mode = \"temporary\"\n\
max_failures = 3\n\
wait_increment = 60\n\
max_wait = 900\n\
failure_reset = 43200\n\
quick_check = 1000\n\
quick_wait = 60\n\
[acr]\n\
basic = 1\n\
strong = 2\n\
[[client]]\n\
id = \"portal\"\n\
level = 1\n\
[[user]]\n\
name = \"ann\"\n\
roles = [\"staff\"]\n\
password = { salt = \"73616c74\", iterations = 1, digest = \"55ac046e56e3089fec1691c22544b605f94185216dde0465e68b9d57c20dacbc\" }\n\
otp = \"GEZDGNBVGY3TQOJQGEZDGNBVGY3TQOJQ\"\n\
recovery = [\"ba7816bf8f01cfea414140de5dae2223b00361a396177a9cb410ff61f20015ad\"]\n\
[[user]]\n\
name = \"bob\"\n\
password = { salt = \"73616c74\", iterations = 1, digest = \"55ac046e56e3089fec1691c22544b605f94185216dde0465e68b9d57c20dacbc\" }\n\
actions = [\"terms\"]\n\
[[user]]\n\
name = \"cy\"\n\
roles = [\"guest\"]\n\
password = { salt = \"73616c74\", iterations = 1, digest = \"55ac046e56e3089fec1691c22544b605f94185216dde0465e68b9d57c20dacbc\" }\n\
";

/// What a realm has: users, the age of each of two levels, and of the first user the bytes of the
/// one-time secret, the recovery codes and the actions; and of the second the first action.
type Seen = (
    usize,
    Option<u64>,
    Option<u64>,
    usize,
    usize,
    Option<Action>,
);

fn seen(realm: &Realm) -> Seen {
    let parts = realm.parts();
    let users = parts.users.as_slice();
    let mut otp = 0;
    let mut codes = 0;
    let mut action = None;
    if let [first, second, ..] = users {
        if let Some(secret) = &first.otp {
            otp = secret.key().len();
        }
        if let Some(recovery) = &first.recovery {
            codes = recovery.digests().len();
        }
        action = second.actions.get(0).copied();
    }
    (
        users.len(),
        parts.flow.live_age(1),
        parts.flow.live_age(2),
        otp,
        codes,
        action,
    )
}

#[test]
fn office_realm(rt: HostRuntime) -> Result<(), Fail> {
    match read_realm(rt.alloc(), OFFICE.as_bytes()) {
        Ok(realm) => {
            assert_eq!(rt;
                seen(&realm),
                (3, Some(36_000), Some(300), 20, 1, Some(Action::Terms))
            );
        }
        Err(_) => assert!(rt; false),
    }
    Ok(())
}

use crate::print_realm;
use realm_data::Realm;
use realm_file::read_realm;
use std::alloc::Global;
use std::test::Fail;

/// The realms of the examples, and one with every part that may be there, at the limits of its ranges.
const TEXTS: [&str; 5] = [
    "\
format = 1\n\
realm = \"builtin\"\n\
admin_key = \"0000000000000000000000000000000000000000000000000000000000000000\"\n\
flow = [{ id = \"form\", require = \"required\", kind = \"form\" }]\n\
[session]\n\
idle = 1800\n\
max = 36000\n\
tab = 1800\n\
[password]\n\
iterations = 100\n\
[otp]\n\
digits = 6\n\
window = 1\n\
[recovery]\n\
count = 8\n\
[lockout]\n\
mode = \"temporary\"\n\
max_failures = 3\n\
wait_increment = 60\n\
max_wait = 900\n\
failure_reset = 43200\n\
quick_check = 1000\n\
quick_wait = 60\n\
[[client]]\n\
id = \"app\"\n\
level = 0\n\
",
    "\
format = 1\n\
realm = \"guests\"\n\
admin_key = \"ba7816bf8f01cfea414140de5dae2223b00361a396177a9cb410ff61f20015ad\"\n\
flow = [\n\
{ id = \"who\", require = \"required\", kind = \"username\" },\n\
{ id = \"ways\", require = \"required\", kind = \"flow\", steps = [\n\
{ id = \"pw\", require = \"alternative\", kind = \"password\" },\n\
{ id = \"no\", require = \"alternative\", kind = \"deny\" },\n\
] },\n\
]\n\
[session]\n\
idle = 1800\n\
max = 36000\n\
tab = 1800\n\
[password]\n\
iterations = 1000\n\
[otp]\n\
digits = 6\n\
window = 1\n\
[recovery]\n\
count = 8\n\
[lockout]\n\
mode = \"temporary\"\n\
max_failures = 3\n\
wait_increment = 60\n\
max_wait = 900\n\
failure_reset = 43200\n\
quick_check = 1000\n\
quick_wait = 60\n\
[[client]]\n\
id = \"site\"\n\
level = 0\n\
[[user]]\n\
name = \"ann\"\n\
password = { salt = \"73616c74\", iterations = 1, digest = \"55ac046e56e3089fec1691c22544b605f94185216dde0465e68b9d57c20dacbc\" }\n\
[[user]]\n\
name = \"gus\"\n\
roles = [\"guest\"]\n\
",
    "\
format = 1\n\
realm = \"office\"\n\
admin_key = \"ba7816bf8f01cfea414140de5dae2223b00361a396177a9cb410ff61f20015ad\"\n\
flow = [\n\
{ id = \"cookie\", require = \"alternative\", kind = \"cookie\" },\n\
{ id = \"forms\", require = \"alternative\", kind = \"flow\", steps = [\n\
{ id = \"l1\", require = \"conditional\", kind = \"flow\", steps = [\n\
{ id = \"l1-when\", require = \"required\", kind = \"level\", level = 1, age = 36000 },\n\
{ id = \"form\", require = \"required\", kind = \"form\" },\n\
] },\n\
{ id = \"guests\", require = \"conditional\", kind = \"flow\", steps = [\n\
{ id = \"guests-when\", require = \"required\", kind = \"role\", role = \"guest\" },\n\
{ id = \"no\", require = \"required\", kind = \"deny\" },\n\
] },\n\
{ id = \"l2\", require = \"conditional\", kind = \"flow\", steps = [\n\
{ id = \"l2-when\", require = \"required\", kind = \"level\", level = 2, age = 300 },\n\
{ id = \"second\", require = \"required\", kind = \"flow\", steps = [\n\
{ id = \"otp\", require = \"alternative\", kind = \"otp\" },\n\
{ id = \"rec\", require = \"alternative\", kind = \"recovery\" },\n\
] },\n\
] },\n\
] },\n\
]\n\
[session]\n\
idle = 1800\n\
max = 36000\n\
tab = 1800\n\
[password]\n\
iterations = 1\n\
[otp]\n\
digits = 6\n\
window = 1\n\
[recovery]\n\
count = 12\n\
[lockout]\n\
mode = \"temporary\"\n\
max_failures = 3\n\
wait_increment = 60\n\
max_wait = 900\n\
failure_reset = 43200\n\
quick_check = 1000\n\
quick_wait = 60\n\
[acr]\n\
basic = 1\n\
strong = 2\n\
[[client]]\n\
id = \"portal\"\n\
level = 1\n\
[[user]]\n\
name = \"ann\"\n\
roles = [\"staff\"]\n\
password = { salt = \"73616c74\", iterations = 1, digest = \"55ac046e56e3089fec1691c22544b605f94185216dde0465e68b9d57c20dacbc\" }\n\
otp = \"GEZDGNBVGY3TQOJQGEZDGNBVGY3TQOJQ\"\n\
recovery = [\"ba7816bf8f01cfea414140de5dae2223b00361a396177a9cb410ff61f20015ad\"]\n\
[[user]]\n\
name = \"bob\"\n\
password = { salt = \"73616c74\", iterations = 1, digest = \"55ac046e56e3089fec1691c22544b605f94185216dde0465e68b9d57c20dacbc\" }\n\
actions = [\"terms\"]\n\
[[user]]\n\
name = \"cy\"\n\
roles = [\"guest\"]\n\
password = { salt = \"73616c74\", iterations = 1, digest = \"55ac046e56e3089fec1691c22544b605f94185216dde0465e68b9d57c20dacbc\" }\n\
",
    "\
format = 1\n\
realm = \"two-pages\"\n\
admin_key = \"ba7816bf8f01cfea414140de5dae2223b00361a396177a9cb410ff61f20015ad\"\n\
flow = [\n\
{ id = \"user\", require = \"required\", kind = \"username\" },\n\
{ id = \"pw\", require = \"required\", kind = \"password\" },\n\
]\n\
[session]\n\
idle = 1800\n\
max = 36000\n\
tab = 1800\n\
[password]\n\
iterations = 1000\n\
[otp]\n\
digits = 6\n\
window = 1\n\
[recovery]\n\
count = 8\n\
[lockout]\n\
mode = \"temporary\"\n\
max_failures = 3\n\
wait_increment = 60\n\
max_wait = 900\n\
failure_reset = 43200\n\
quick_check = 1000\n\
quick_wait = 60\n\
[[client]]\n\
id = \"app\"\n\
level = 0\n\
[[user]]\n\
name = \"ann\"\n\
password = { salt = \"73616c74\", iterations = 1, digest = \"55ac046e56e3089fec1691c22544b605f94185216dde0465e68b9d57c20dacbc\" }\n\
",
    "\
format = 1\n\
realm = \"all.parts\"\n\
admin_key = \"00112233445566778899aabbccddeeff00112233445566778899aabbccddeeff\"\n\
session = { idle = 1, max = 31536000, tab = 60 }\n\
password = { iterations = 2000000 }\n\
otp = { digits = 8, window = 2 }\n\
recovery = { count = 16 }\n\
lockout = { mode = \"permanent\", max_failures = 1000, wait_increment = 1, max_wait = 86400, failure_reset = 31536000, quick_check = 0, quick_wait = 0 }\n\
acr = { \"1\" = 0, \"a.b@c\" = 1, z = 1 }\n\
client = [{ id = \"b\", level = 0 }, { id = \"a\", level = 1 }]\n\
flow = [\n\
{ id = \"allow\", require = \"disabled\", kind = \"allow\" },\n\
{ id = \"empty\", require = \"disabled\", kind = \"flow\", steps = [] },\n\
{ id = \"when\", require = \"conditional\", kind = \"flow\", steps = [\n\
{ id = \"set-up\", require = \"required\", kind = \"configured\" },\n\
{ id = \"staff\", require = \"disabled\", kind = \"role\", role = \"staff\", negate = true },\n\
{ id = \"one\", require = \"required\", kind = \"level\", level = 1, age = 0 },\n\
{ id = \"user\", require = \"required\", kind = \"username\" },\n\
] },\n\
{ id = \"pw\", require = \"required\", kind = \"password\" },\n\
]\n\
[[user]]\n\
name = \"all\"\n\
roles = [\"b\", \"a\"]\n\
enabled = false\n\
password = { salt = \"00ff\", iterations = 2000000, digest = \"55ac046e56e3089fec1691c22544b605f94185216dde0465e68b9d57c20dacbc\" }\n\
otp = \"GEZDGNBVGY3TQOJQ\"\n\
recovery = [\"00112233445566778899aabbccddeeff00112233445566778899aabbccddeeff\", \"ba7816bf8f01cfea414140de5dae2223b00361a396177a9cb410ff61f20015ad\"]\n\
actions = [\"recovery_codes\", \"configure_otp\", \"update_password\", \"verify_email\", \"terms\"]\n\
[[user]]\n\
name = \"none\"\n\
",
];

/// The office as it is printed.
const OFFICE: &str = "\
admin_key = \"ba7816bf8f01cfea414140de5dae2223b00361a396177a9cb410ff61f20015ad\"\n\
format = 1\n\
realm = \"office\"\n\
\n\
[acr]\n\
basic = 1\n\
strong = 2\n\
\n\
[[client]]\n\
id = \"portal\"\n\
level = 1\n\
\n\
[[flow]]\n\
id = \"cookie\"\n\
kind = \"cookie\"\n\
require = \"alternative\"\n\
\n\
[[flow]]\n\
id = \"forms\"\n\
kind = \"flow\"\n\
require = \"alternative\"\n\
\n\
[[flow.steps]]\n\
id = \"l1\"\n\
kind = \"flow\"\n\
require = \"conditional\"\n\
\n\
[[flow.steps.steps]]\n\
age = 36000\n\
id = \"l1-when\"\n\
kind = \"level\"\n\
level = 1\n\
require = \"required\"\n\
\n\
[[flow.steps.steps]]\n\
id = \"form\"\n\
kind = \"form\"\n\
require = \"required\"\n\
\n\
[[flow.steps]]\n\
id = \"guests\"\n\
kind = \"flow\"\n\
require = \"conditional\"\n\
\n\
[[flow.steps.steps]]\n\
id = \"guests-when\"\n\
kind = \"role\"\n\
require = \"required\"\n\
role = \"guest\"\n\
\n\
[[flow.steps.steps]]\n\
id = \"no\"\n\
kind = \"deny\"\n\
require = \"required\"\n\
\n\
[[flow.steps]]\n\
id = \"l2\"\n\
kind = \"flow\"\n\
require = \"conditional\"\n\
\n\
[[flow.steps.steps]]\n\
age = 300\n\
id = \"l2-when\"\n\
kind = \"level\"\n\
level = 2\n\
require = \"required\"\n\
\n\
[[flow.steps.steps]]\n\
id = \"second\"\n\
kind = \"flow\"\n\
require = \"required\"\n\
\n\
[[flow.steps.steps.steps]]\n\
id = \"otp\"\n\
kind = \"otp\"\n\
require = \"alternative\"\n\
\n\
[[flow.steps.steps.steps]]\n\
id = \"rec\"\n\
kind = \"recovery\"\n\
require = \"alternative\"\n\
\n\
[lockout]\n\
failure_reset = 43200\n\
max_failures = 3\n\
max_wait = 900\n\
mode = \"temporary\"\n\
quick_check = 1000\n\
quick_wait = 60\n\
wait_increment = 60\n\
\n\
[otp]\n\
digits = 6\n\
window = 1\n\
\n\
[password]\n\
iterations = 1\n\
\n\
[recovery]\n\
count = 12\n\
\n\
[session]\n\
idle = 1800\n\
max = 36000\n\
tab = 1800\n\
\n\
[[user]]\n\
name = \"ann\"\n\
otp = \"GEZDGNBVGY3TQOJQGEZDGNBVGY3TQOJQ\"\n\
recovery = [\"ba7816bf8f01cfea414140de5dae2223b00361a396177a9cb410ff61f20015ad\"]\n\
roles = [\"staff\"]\n\
\n\
[user.password]\n\
digest = \"55ac046e56e3089fec1691c22544b605f94185216dde0465e68b9d57c20dacbc\"\n\
iterations = 1\n\
salt = \"73616c74\"\n\
\n\
[[user]]\n\
actions = [\"terms\"]\n\
name = \"bob\"\n\
\n\
[user.password]\n\
digest = \"55ac046e56e3089fec1691c22544b605f94185216dde0465e68b9d57c20dacbc\"\n\
iterations = 1\n\
salt = \"73616c74\"\n\
\n\
[[user]]\n\
name = \"cy\"\n\
roles = [\"guest\"]\n\
\n\
[user.password]\n\
digest = \"55ac046e56e3089fec1691c22544b605f94185216dde0465e68b9d57c20dacbc\"\n\
iterations = 1\n\
salt = \"73616c74\"\n\
";

/// Whether the realm's text is read as it.
fn reads_back(alloc: Global, realm: &Realm) -> Result<bool, Fail> {
    let text = print_realm(alloc, realm)?;
    match read_realm(alloc, text.as_slice()) {
        Ok(back) => Ok(back.is_same(realm)),
        Err(_) => Ok(false),
    }
}

#[test]
fn built_in_realm_reads_back(rt: HostRuntime) -> Result<(), Fail> {
    let realm = Realm::builtin(rt.alloc())?;
    assert!(rt; reads_back(rt.alloc(), &realm)?);
    Ok(())
}

#[test]
fn each_realm_reads_back(rt: HostRuntime) -> Result<(), Fail> {
    for text in TEXTS {
        match read_realm(rt.alloc(), text.as_bytes()) {
            Ok(realm) => assert!(rt; reads_back(rt.alloc(), &realm)?),
            Err(_) => assert!(rt; false),
        }
    }
    Ok(())
}

#[test]
fn office_as_text(rt: HostRuntime) -> Result<(), Fail> {
    match read_realm(rt.alloc(), TEXTS[2].as_bytes()) {
        Ok(realm) => {
            let text = print_realm(rt.alloc(), &realm)?;
            assert_eq!(rt; text.as_slice(), OFFICE.as_bytes());
        }
        Err(_) => assert!(rt; false),
    }
    Ok(())
}

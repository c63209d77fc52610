ghost use Rattle.std.specs.Prelude.{◌≡◌, ◌<◌};

use crate::outside::Outside;
use crate::run::run;
use crate::status::Status;
use login_base::{Argv, MemSink, MemSource, Memory, Steps};
use std::alloc::Global;
use std::marker::Brand;
use std::sync::ledger::{Blank, Ledger};
use std::test::Fail;

/// What a run ends with, and what it wrote.
#[derive(Drop)]
struct Replayed {
    status: u8,
    text: Vec<u8>,
}

/// A script and a realm, and the numbers of the reads of each and of the writes that fail.
#[derive(Clone, Copy)]
struct Case<'a> {
    script: &'a [u8],
    realm: &'a [u8],
    failing_realm_reads: &'a [u64],
    failing_reads: &'a [u64],
    failing_puts: &'a [u64],
}

/// Runs the program with these arguments, with a counter of steps on this ledger.
fn run_counted<L: Ledger>(
    alloc: Global,
    arguments: &[&str],
    case: Case<'_>,
    blank: Blank,
) -> Result<Replayed, Memory>
    requires name { blank.name ≡ L.name }
    requires parts { blank.parts ≡ L.parts }
    requires some { 0 < blank.parts }
{
    let mut steps = Steps::<L>::new(blank);
    let mut argv = Argv::make(alloc);
    for argument in arguments {
        argv.push(argument)?;
    }
    let bytes = Vec::from_slice(alloc, case.script)?;
    let failing_reads = Vec::from_slice(alloc, case.failing_reads)?;
    let failing_puts = Vec::from_slice(alloc, case.failing_puts)?;
    let realm = Vec::from_slice(alloc, case.realm)?;
    let failing_realm_reads = Vec::from_slice(alloc, case.failing_realm_reads)?;
    let mut outside = Outside {
        script: MemSource::make(bytes, failing_reads),
        realm: MemSource::make(realm, failing_realm_reads),
        sink: MemSink::make(alloc, failing_puts),
    };
    let Status(status) = run(alloc, &argv, &mut outside, &mut steps);
    let text = Vec::from_slice(alloc, outside.sink.bytes())?;
    Ok(Replayed { status, text })
}

/// Runs the program with these arguments.
fn run_on(alloc: Global, arguments: &[&str], case: Case<'_>) -> Result<Replayed, Memory> {
    run_counted::<Brand>(alloc, arguments, case, Blank::new(1))
}

/// Arguments outside the grammar.
const OUTSIDE: [&[&str]; 5] = [
    &[],
    &["replay", "--bogus"],
    &["replay", "replay"],
    &["Replay"],
    &["--replay"],
];

#[test]
fn arguments_outside_the_grammar_read_nothing(rt: HostRuntime) -> Result<(), Fail> {
    for arguments in OUTSIDE {
        let case = Case {
            script: b"x\n",
            realm: b"=",
            failing_realm_reads: &[1],
            failing_reads: &[1],
            failing_puts: &[],
        };
        let run = run_on(rt.alloc(), arguments, case)?;
        assert_eq!(rt; run.status, 2, "{arguments:?}");
        assert_eq!(rt;
            run.text.as_slice(),
            b"error 2 usage\n".as_slice(),
            "{arguments:?}"
        );
        let case = Case {
            script: b"x\n",
            realm: b"=",
            failing_realm_reads: &[1],
            failing_reads: &[],
            failing_puts: &[1],
        };
        let run = run_on(rt.alloc(), arguments, case)?;
        assert_eq!(rt; run.status, 5, "{arguments:?}");
        assert!(rt; run.text.is_empty(), "{arguments:?}");
    }
    Ok(())
}

/// Three lines, the last of which has no newline.
const THREE: &[u8] = b"1 1 user-add name=ann
x
2 2 user-add name=ann";

const USER: &str = "told user name=ann id=1\n";

const USER_HEAD: &str = "told user name=ann id=1
refused 1 BadForm at=head
";

const USER_HEAD_TAKEN: &str = "told user name=ann id=1
refused 1 BadForm at=head
refused 2 AdminRefused rule=UserTaken
";

const USER_HEAD_READ: &str = "told user name=ann id=1
refused 1 BadForm at=head
error 4 read
";

/// The reads and the writes that fail, the status, and what is written. One read takes the whole
/// script, and the next finds its end.
const FAULTS: [(&[u64], &[u64], u8, &str); 8] = [
    (&[1], &[], 4, "error 4 read\n"),
    (&[2], &[], 4, USER_HEAD_READ),
    (&[3], &[], 0, USER_HEAD_TAKEN),
    (&[], &[1], 5, ""),
    (&[], &[2], 5, USER),
    (&[], &[3], 5, USER_HEAD),
    (&[], &[4], 0, USER_HEAD_TAKEN),
    (&[2], &[3], 5, USER_HEAD),
];

#[test]
fn faults_end_the_run_where_they_are_met(rt: HostRuntime) -> Result<(), Fail> {
    for (reads, puts, status, text) in FAULTS {
        let case = Case {
            script: THREE,
            realm: b"",
            failing_realm_reads: &[],
            failing_reads: reads,
            failing_puts: puts,
        };
        let run = run_on(rt.alloc(), &["replay"], case)?;
        assert_eq!(rt; run.status, status, "reads {reads:?}, puts {puts:?}");
        assert_eq!(rt;
            run.text.as_slice(),
            text.as_bytes(),
            "reads {reads:?}, puts {puts:?}"
        );
    }
    Ok(())
}

/// The word of the command, the realm, the reads of it and the writes that fail, the status, and
/// what is written. One read takes the whole realm, and the next finds its end.
type RealmFault = (
    &'static str,
    &'static [u8],
    &'static [u64],
    &'static [u64],
    u8,
    &'static str,
);

const REALM_FAULTS: [RealmFault; 8] = [
    ("check", b"", &[1], &[], 4, "error 4 read\n"),
    ("check", b"=", &[2], &[], 4, "error 4 read\n"),
    ("check", b"=", &[3], &[], 3, "error 3 realm NotToml\n"),
    ("check", b"=", &[], &[1], 5, ""),
    ("replay", b"=", &[2], &[], 4, "error 4 read\n"),
    ("replay", b"=", &[2], &[1], 5, ""),
    ("replay", b"=", &[], &[], 3, "error 3 realm NotToml\n"),
    ("replay", b"", &[2], &[], 0, USER_HEAD_TAKEN),
];

#[test]
fn a_realm_is_read_before_the_script(rt: HostRuntime) -> Result<(), Fail> {
    for (command, realm, reads, puts, status, text) in REALM_FAULTS {
        let case = Case {
            script: THREE,
            realm,
            failing_realm_reads: reads,
            failing_reads: &[],
            failing_puts: puts,
        };
        let run = run_on(rt.alloc(), &[command], case)?;
        assert_eq!(rt; run.status, status, "{command}, reads {reads:?}");
        assert_eq!(rt;
            run.text.as_slice(),
            text.as_bytes(),
            "{command}, reads {reads:?}"
        );
    }
    Ok(())
}

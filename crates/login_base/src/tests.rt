ghost use Rattle.login_base.specs.Steps.{IsBlank};

use crate::{
    Argv, Duplicate, Id, MemSink, MemSource, Moment, Name, Put, Read, Sequence, Sink, Source,
    Steps, id_text, is_name, read_id, read_name,
};
use std::marker::Brand;
use std::sync::ledger::{Blank, Ledger};
use std::test::Fail;

const FIRST: &str = "0000000000000001.00000000000000640000000000000065";

/// Texts that are no id's: cut, longer, a capital, no dot, another letter.
const NO_IDS: [&str; 6] = [
    "",
    "0000000000000001.0000000000000064000000000000006",
    "0000000000000001.000000000000006400000000000000650",
    "000000000000000A.00000000000000640000000000000065",
    "0000000000000001000000000000000640000000000000065",
    "000000000000000g.00000000000000640000000000000065",
];

#[test]
fn ids_are_spelled_and_read_back(rt: HostRuntime) -> Result<(), Fail> {
    let ids = [
        (
            FIRST,
            Id {
                serial: 1,
                high: 100,
                low: 101,
            },
        ),
        (
            "0123456789abcdef.fedcba98765432100000000000000000",
            Id {
                serial: 0x0123_4567_89ab_cdef,
                high: 0xfedc_ba98_7654_3210,
                low: 0,
            },
        ),
        (
            "ffffffffffffffff.ffffffffffffffffffffffffffffffff",
            Id {
                serial: u64::MAX,
                high: u64::MAX,
                low: u64::MAX,
            },
        ),
    ];
    for (text, id) in ids {
        assert_eq!(rt; id_text(&id).as_slice(), text.as_bytes());
        assert_eq!(rt; read_id(text.as_bytes()), Some(id));
    }
    for text in NO_IDS {
        assert_eq!(rt; read_id(text.as_bytes()), None);
    }
    Ok(())
}

#[test]
fn names_keep_their_grammar(rt: HostRuntime) -> Result<(), Fail> {
    let names = ["a", "0", "ann", "a.b_c@d-e", "9lives"];
    let no_names = ["", "Ann", ".a", "_", "a b", "a+b", "caf\u{e9}", "-x", "a/b"];
    for text in names {
        assert!(rt; is_name(text.as_bytes()));
        assert!(rt; read_name(rt.alloc(), text.as_bytes())?.is_some());
    }
    for text in no_names {
        assert!(rt; !is_name(text.as_bytes()));
        assert!(rt; read_name(rt.alloc(), text.as_bytes())?.is_none());
    }
    assert!(rt; is_name([b'a'; 64].as_slice()));
    assert!(rt; !is_name([b'a'; 65].as_slice()));
    Ok(())
}

#[test]
fn names_and_arguments_are_kept(rt: HostRuntime) -> Result<(), Fail> {
    let name = Name::known(rt.alloc(), b"ann")?;
    assert!(rt; name == name.duplicate(rt.alloc())?);
    assert!(rt; name != Name::known(rt.alloc(), b"bob")?);
    assert_eq!(rt; name.as_bytes(), b"ann".as_slice());
    let mut arguments = Argv::make(rt.alloc());
    arguments.push("replay")?;
    arguments.push("--x")?;
    assert_eq!(rt; arguments.len(), 2);
    assert_eq!(rt; arguments.argument(1), "--x");
    let mut items = Sequence::new(rt.alloc());
    items.push(7u8)?;
    assert_eq!(rt; items.as_slice(), [7u8].as_slice());
    assert_eq!(rt; items.get(1), None);
    Ok(())
}

#[test]
fn moments_end_at_the_limit(rt: HostRuntime) {
    let cases = [
        (0, true, 0),
        ((1 << 53) - 1, true, (1 << 53) - 1),
        (1 << 53, false, (1 << 53) - 1),
        (u64::MAX, false, (1 << 53) - 1),
    ];
    for (millis, is_moment, clamped) in cases {
        assert_eq!(rt; Moment::new(millis).is_some(), is_moment);
        assert_eq!(rt; Moment::clamped(millis).millis(), clamped);
    }
    let last = Moment::clamped(u64::MAX);
    assert_eq!(rt; Moment::new((1 << 53) - 1), Some(last));
    assert!(rt; last != Moment::ZERO);
    assert_eq!(rt; Moment::ZERO.later(last), last);
    assert_eq!(rt; last.later(Moment::ZERO), last);
}

fn tick_twice<L: Ledger>(blank: Blank)
    requires blank { IsBlank blank L.name L.parts }
{
    let mut steps = Steps::<L>::new(blank);
    steps.tick();
    steps.tick();
}

#[test]
fn steps_count_over_a_blank(_rt: HostRuntime) {
    tick_twice::<Brand>(Blank::new(1));
}

#[test]
fn a_source_in_memory_fails_at_the_numbered_calls_and_ends(rt: HostRuntime) -> Result<(), Fail> {
    let bytes = b"abcde".to_vec(rt.alloc())?;
    let failing = [2u64, 5].to_vec(rt.alloc())?;
    let mut source = MemSource::make(bytes, failing);
    let mut buffer = [0u8; 3];
    let answers = [
        Read::Got(3),
        Read::Failed,
        Read::Got(2),
        Read::Got(0),
        Read::Failed,
        Read::Got(0),
    ];
    for answer in answers {
        assert_eq!(rt; source.read(&mut buffer), answer);
    }
    assert_eq!(rt; buffer.as_slice(), b"dec".as_slice());
    assert_eq!(rt; source.read(&mut []), Read::Got(0));
    Ok(())
}

#[test]
fn a_sink_in_memory_fails_at_the_numbered_calls(rt: HostRuntime) -> Result<(), Fail> {
    let failing = [2u64].to_vec(rt.alloc())?;
    let mut sink = MemSink::make(rt.alloc(), failing);
    assert_eq!(rt; sink.put(b"ab"), Put::All);
    assert_eq!(rt; sink.put(b"cd"), Put::Failed);
    assert_eq!(rt; sink.put(b"ef"), Put::All);
    assert_eq!(rt; sink.bytes(), b"abef".as_slice());
    Ok(())
}

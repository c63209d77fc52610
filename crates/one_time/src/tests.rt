use crate::{
    Base32Fault, RecoveryList, Verdict, base32_read, base32_reads_back, base32_text, check_totp,
    totp_at,
};
use login_base::Sequence;
use std::test::Fail;

const KEY: &[u8] = b"12345678901234567890";

struct CodeAt {
    key: &'static [u8],
    step: u64,
    digits: u32,
    code: u32,
}

// The codes of RFC 4226 (appendix D) and RFC 6238 (appendix B, SHA-1), and some of another program.
const CODES: [CodeAt; 22] = [
    CodeAt {
        key: KEY,
        step: 0,
        digits: 6,
        code: 755224,
    },
    CodeAt {
        key: KEY,
        step: 1,
        digits: 6,
        code: 287082,
    },
    CodeAt {
        key: KEY,
        step: 2,
        digits: 6,
        code: 359152,
    },
    CodeAt {
        key: KEY,
        step: 3,
        digits: 6,
        code: 969429,
    },
    CodeAt {
        key: KEY,
        step: 4,
        digits: 6,
        code: 338314,
    },
    CodeAt {
        key: KEY,
        step: 5,
        digits: 6,
        code: 254676,
    },
    CodeAt {
        key: KEY,
        step: 6,
        digits: 6,
        code: 287922,
    },
    CodeAt {
        key: KEY,
        step: 7,
        digits: 6,
        code: 162583,
    },
    CodeAt {
        key: KEY,
        step: 8,
        digits: 6,
        code: 399871,
    },
    CodeAt {
        key: KEY,
        step: 9,
        digits: 6,
        code: 520489,
    },
    CodeAt {
        key: KEY,
        step: 1,
        digits: 8,
        code: 94287082,
    },
    CodeAt {
        key: KEY,
        step: 37037036,
        digits: 8,
        code: 7081804,
    },
    CodeAt {
        key: KEY,
        step: 37037037,
        digits: 8,
        code: 14050471,
    },
    CodeAt {
        key: KEY,
        step: 41152263,
        digits: 8,
        code: 89005924,
    },
    CodeAt {
        key: KEY,
        step: 66666666,
        digits: 8,
        code: 69279037,
    },
    CodeAt {
        key: KEY,
        step: 666666666,
        digits: 8,
        code: 65353130,
    },
    CodeAt {
        key: b"",
        step: 0,
        digits: 6,
        code: 328482,
    },
    CodeAt {
        key: b"",
        step: 18446744073709551615,
        digits: 8,
        code: 99566304,
    },
    CodeAt {
        key: &[0x00; 64],
        step: 1,
        digits: 7,
        code: 812658,
    },
    CodeAt {
        key: &[0xff; 65],
        step: 30000000,
        digits: 8,
        code: 35060183,
    },
    CodeAt {
        key: KEY,
        step: 4294967296,
        digits: 7,
        code: 5999456,
    },
    CodeAt {
        key: KEY,
        step: 9223372036854775808,
        digits: 6,
        code: 959616,
    },
];

#[test]
fn codes_of_the_standards(rt: HostRuntime) {
    for case in CODES.iter() {
        let digits = case.digits.clamp(6, 8);
        assert_eq!(rt;
            totp_at(case.key, case.step, digits),
            case.code,
            "step {}",
            case.step
        );
    }
}

struct Check {
    now: u64,
    window: u32,
    digits: u32,
    spent: &'static [u64],
    code: &'static [u8],
    verdict: Verdict,
}

const CHECKS: [Check; 26] = [
    Check {
        now: 29999,
        window: 0,
        digits: 6,
        spent: &[],
        code: b"755224",
        verdict: Verdict::Fits(0),
    },
    Check {
        now: 30000,
        window: 0,
        digits: 6,
        spent: &[],
        code: b"755224",
        verdict: Verdict::Wrong,
    },
    Check {
        now: 30000,
        window: 1,
        digits: 6,
        spent: &[],
        code: b"755224",
        verdict: Verdict::Fits(0),
    },
    Check {
        now: 30000,
        window: 1,
        digits: 6,
        spent: &[0],
        code: b"755224",
        verdict: Verdict::Spent(0),
    },
    Check {
        now: 0,
        window: 2,
        digits: 6,
        spent: &[],
        code: b"755224",
        verdict: Verdict::Fits(0),
    },
    Check {
        now: 0,
        window: 2,
        digits: 6,
        spent: &[],
        code: b"359152",
        verdict: Verdict::Fits(2),
    },
    Check {
        now: 0,
        window: 2,
        digits: 6,
        spent: &[],
        code: b"969429",
        verdict: Verdict::Wrong,
    },
    Check {
        now: 89999,
        window: 2,
        digits: 6,
        spent: &[],
        code: b"755224",
        verdict: Verdict::Fits(0),
    },
    Check {
        now: 90000,
        window: 2,
        digits: 6,
        spent: &[],
        code: b"755224",
        verdict: Verdict::Wrong,
    },
    Check {
        now: 90000,
        window: 2,
        digits: 6,
        spent: &[3, 2],
        code: b"287082",
        verdict: Verdict::Fits(1),
    },
    Check {
        now: 90000,
        window: 2,
        digits: 6,
        spent: &[3, 2, 1],
        code: b"287082",
        verdict: Verdict::Spent(1),
    },
    Check {
        now: 59000,
        window: 0,
        digits: 8,
        spent: &[],
        code: b"94287082",
        verdict: Verdict::Fits(1),
    },
    Check {
        now: 1111111109000,
        window: 1,
        digits: 8,
        spent: &[],
        code: b"07081804",
        verdict: Verdict::Fits(37037036),
    },
    Check {
        now: 1111111109000,
        window: 1,
        digits: 8,
        spent: &[],
        code: b"7081804",
        verdict: Verdict::Wrong,
    },
    Check {
        now: 59000,
        window: 0,
        digits: 6,
        spent: &[],
        code: b"94287082",
        verdict: Verdict::Wrong,
    },
    Check {
        now: 59000,
        window: 0,
        digits: 6,
        spent: &[],
        code: b"",
        verdict: Verdict::Wrong,
    },
    Check {
        now: 59000,
        window: 0,
        digits: 6,
        spent: &[],
        code: b"28708",
        verdict: Verdict::Wrong,
    },
    Check {
        now: 59000,
        window: 0,
        digits: 6,
        spent: &[],
        code: b"2870821",
        verdict: Verdict::Wrong,
    },
    Check {
        now: 59000,
        window: 0,
        digits: 6,
        spent: &[],
        code: b" 87082",
        verdict: Verdict::Wrong,
    },
    Check {
        now: 4607040000,
        window: 1,
        digits: 6,
        spent: &[],
        code: b"468457",
        verdict: Verdict::Fits(153567),
    },
    Check {
        now: 4607040000,
        window: 1,
        digits: 6,
        spent: &[153567],
        code: b"468457",
        verdict: Verdict::Fits(153569),
    },
    Check {
        now: 4607040000,
        window: 1,
        digits: 6,
        spent: &[153569, 153567],
        code: b"468457",
        verdict: Verdict::Spent(153567),
    },
    Check {
        now: 4607040000,
        window: 1,
        digits: 6,
        spent: &[153569],
        code: b"468457",
        verdict: Verdict::Fits(153567),
    },
    Check {
        now: 4607040000,
        window: 0,
        digits: 6,
        spent: &[],
        code: b"468457",
        verdict: Verdict::Wrong,
    },
    Check {
        now: 18446744073709551615,
        window: 2,
        digits: 6,
        spent: &[],
        code: b"813079",
        verdict: Verdict::Fits(614891469123653),
    },
    Check {
        now: 18446744073709551615,
        window: 1,
        digits: 6,
        spent: &[],
        code: b"813079",
        verdict: Verdict::Wrong,
    },
];

// The least unspent step of the window fits; steps 153567 and 153569 of this key share a code.
#[test]
fn codes_in_their_windows(rt: HostRuntime) {
    for case in CHECKS.iter() {
        let digits = case.digits.clamp(6, 8);
        let window = case.window.min(2);
        let verdict = check_totp(KEY, case.now, window, digits, case.spent, case.code);
        assert_eq!(rt; verdict, case.verdict, "at {}", case.now);
    }
}

// The SHA-256 digests of `abc`, `def` and again `abc`.
const DIGESTS: [[u8; 32]; 3] = [
    *b"\xba\x78\x16\xbf\x8f\x01\xcf\xea\x41\x41\x40\xde\x5d\xae\x22\x23\xb0\x03\x61\xa3\x96\x17\x7a\x9c\xb4\x10\xff\x61\xf2\x00\x15\xad",
    *b"\xcb\x83\x79\xac\x20\x98\xaa\x16\x50\x29\xe3\x93\x8a\x51\xda\x0b\xce\xcf\xc0\x08\xfd\x67\x95\xf4\x01\x17\x86\x47\xf9\x6c\x5b\x34",
    *b"\xba\x78\x16\xbf\x8f\x01\xcf\xea\x41\x41\x40\xde\x5d\xae\x22\x23\xb0\x03\x61\xa3\x96\x17\x7a\x9c\xb4\x10\xff\x61\xf2\x00\x15\xad",
];

struct Used {
    spent: u32,
    value: &'static [u8],
    next: Option<u32>,
    verdict: Verdict,
}

const USES: [Used; 11] = [
    Used {
        spent: 0,
        value: b"abc",
        next: Some(1),
        verdict: Verdict::Fits(1),
    },
    Used {
        spent: 0,
        value: b"def",
        next: Some(1),
        verdict: Verdict::Wrong,
    },
    Used {
        spent: 0,
        value: b"",
        next: Some(1),
        verdict: Verdict::Wrong,
    },
    Used {
        spent: 1,
        value: b"abc",
        next: Some(2),
        verdict: Verdict::Spent(1),
    },
    Used {
        spent: 1,
        value: b"def",
        next: Some(2),
        verdict: Verdict::Fits(2),
    },
    Used {
        spent: 1,
        value: b"ABC",
        next: Some(2),
        verdict: Verdict::Wrong,
    },
    Used {
        spent: 2,
        value: b"abc",
        next: Some(3),
        verdict: Verdict::Fits(3),
    },
    Used {
        spent: 2,
        value: b"def",
        next: Some(3),
        verdict: Verdict::Spent(2),
    },
    Used {
        spent: 3,
        value: b"abc",
        next: None,
        verdict: Verdict::Spent(1),
    },
    Used {
        spent: 3,
        value: b"def",
        next: None,
        verdict: Verdict::Spent(2),
    },
    Used {
        spent: 7,
        value: b"ghi",
        next: None,
        verdict: Verdict::Wrong,
    },
];

// The next number alone fits; a later one is wrong, and an earlier one is spent.
#[test]
fn recovery_codes_in_order(rt: HostRuntime) -> Result<(), Fail> {
    for case in USES.iter() {
        let list = RecoveryList {
            digests: Sequence::from_vec(DIGESTS.to_vec(rt.alloc())?),
            spent: case.spent,
        };
        assert_eq!(rt; list.next(), case.next);
        assert_eq!(rt;
            list.check(case.value),
            case.verdict,
            "after {}",
            case.spent
        );
    }
    let none = RecoveryList {
        digests: Sequence::new(rt.alloc()),
        spent: 0,
    };
    assert_eq!(rt; none.next(), None);
    assert_eq!(rt; none.check(b"abc"), Verdict::Wrong);
    Ok(())
}

struct Text {
    text: &'static [u8],
    bytes: &'static [u8],
}

// RFC 4648 (section 10), either case, any fill, and last bits that aren't zero.
const TEXTS: [Text; 16] = [
    Text {
        text: b"",
        bytes: b"",
    },
    Text {
        text: b"MY======",
        bytes: b"f",
    },
    Text {
        text: b"MZXQ====",
        bytes: b"fo",
    },
    Text {
        text: b"MZXW6===",
        bytes: b"foo",
    },
    Text {
        text: b"MZXW6YQ=",
        bytes: b"foob",
    },
    Text {
        text: b"MZXW6YTB",
        bytes: b"fooba",
    },
    Text {
        text: b"MZXW6YTBOI======",
        bytes: b"foobar",
    },
    Text {
        text: b"mzxw6",
        bytes: b"foo",
    },
    Text {
        text: b"mZxW6ytb",
        bytes: b"fooba",
    },
    Text {
        text: b"MZ",
        bytes: b"f",
    },
    Text {
        text: b"MZ=",
        bytes: b"f",
    },
    Text {
        text: b"MY==========",
        bytes: b"f",
    },
    Text {
        text: b"====",
        bytes: b"",
    },
    Text {
        text: b"GEZDGNBVGY3TQOJQGEZDGNBVGY3TQOJQ",
        bytes: KEY,
    },
    Text {
        text: b"77777777",
        bytes: b"\xff\xff\xff\xff\xff",
    },
    Text {
        text: b"AAAAAAAA",
        bytes: b"\x00\x00\x00\x00\x00",
    },
];

struct Refused {
    text: &'static [u8],
    fault: Base32Fault,
}

const REFUSED: [Refused; 13] = [
    Refused {
        text: b"MZ1W",
        fault: Base32Fault::BadLetter { at: 2 },
    },
    Refused {
        text: b"M",
        fault: Base32Fault::BadLength,
    },
    Refused {
        text: b"MZX",
        fault: Base32Fault::BadLength,
    },
    Refused {
        text: b"MZXW6Y",
        fault: Base32Fault::BadLength,
    },
    Refused {
        text: b"M=Y",
        fault: Base32Fault::BadLetter { at: 1 },
    },
    Refused {
        text: b"=MY",
        fault: Base32Fault::BadLetter { at: 0 },
    },
    Refused {
        text: b"0",
        fault: Base32Fault::BadLetter { at: 0 },
    },
    Refused {
        text: b"8",
        fault: Base32Fault::BadLetter { at: 0 },
    },
    Refused {
        text: b"MZXW6YT8",
        fault: Base32Fault::BadLetter { at: 7 },
    },
    Refused {
        text: b"MY ",
        fault: Base32Fault::BadLetter { at: 2 },
    },
    Refused {
        text: b"MZXW6YTBO",
        fault: Base32Fault::BadLength,
    },
    Refused {
        text: b"@[`{",
        fault: Base32Fault::BadLetter { at: 0 },
    },
    Refused {
        text: b"M1",
        fault: Base32Fault::BadLetter { at: 1 },
    },
];

#[test]
fn secrets_as_people_type_them(rt: HostRuntime) -> Result<(), Fail> {
    for case in TEXTS.iter() {
        let Ok(bytes) = base32_read(rt.alloc(), case.text) else {
            return Err(Fail::from("no base32"));
        };
        assert_eq!(rt; bytes.as_slice(), case.bytes);
    }
    for case in REFUSED.iter() {
        match base32_read(rt.alloc(), case.text) {
            Ok(_) => return Err(Fail::from("base32")),
            Err(fault) => assert_eq!(rt; fault, case.fault),
        }
    }
    Ok(())
}

#[test]
fn secrets_as_they_are_shown(rt: HostRuntime) -> Result<(), Fail> {
    let text = base32_text(rt.alloc(), KEY)?;
    assert_eq!(rt;
        text.as_slice(),
        b"GEZDGNBVGY3TQOJQGEZDGNBVGY3TQOJQ".as_slice()
    );
    assert_eq!(rt; base32_text(rt.alloc(), b"")?.as_slice(), b"".as_slice());
    assert_eq!(rt;
        base32_text(rt.alloc(), b"foob")?.as_slice(),
        b"MZXW6YQ".as_slice()
    );
    assert_eq!(rt;
        base32_text(rt.alloc(), b"\xff\x00\x80")?.as_slice(),
        b"74AIA".as_slice()
    );
    base32_reads_back(KEY);
    Ok(())
}

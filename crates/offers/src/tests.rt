// The expected values are those of Python's hashlib and base64.
use crate::{offer_of, offered_codes, offered_digests, offered_secret, shown_for};
use login_base::{Draws, Sequence};
use one_time::base32_text;
use realm_data::Action;
use std::test::Fail;

/// The offer of the draws 100 to 109.
const OFFER: &[u8; 32] =
    b"\x88\xdb\x08\x37\x4a\x69\x42\xd4\xf1\x53\xf2\xb0\x72\x7d\x58\x91\x8f\x86\x3b\xb9\x19\x04\x59\x59\x77\xf7\xd5\x4e\x7c\x77\x76\x18";

/// The base32 text of its secret.
const SECRET: &[u8] = b"RDNQQN2KNFBNJ4KT6KYHE7KYSGHYMO5Z";

#[derive(Clone, Copy)]
struct CodeOf {
    number: usize,
    code: &'static [u8],
    digest: &'static [u8; 32],
}

const CODES: [CodeOf; 3] = [
    CodeOf {
        number: 1,
        code: b"R4K42O3E7LGY",
        digest: b"\x20\xe5\xae\x8a\x7d\xed\x5f\x43\x72\x85\xf6\x46\xc3\x52\xea\x24\xb7\x9b\xe5\x94\x73\xdf\x6c\xe0\x02\xec\x2d\x1d\x3e\x94\xf8\x3a",
    },
    CodeOf {
        number: 2,
        code: b"PYQCDAXTT62R",
        digest: b"\x64\xda\x8c\x86\x26\xf7\xd0\x71\xb2\xe4\x85\xa2\x07\xf7\x4c\x9f\x13\xd2\xc8\xda\xa9\xb4\xee\x6a\x0a\xfa\x9d\x19\xcf\x40\xfd\x47",
    },
    CodeOf {
        number: 12,
        code: b"HYVQ65RBEMNR",
        digest: b"\x4c\xcb\x1a\xc3\x9c\x85\xfa\x9a\x47\x1a\xf2\xaf\x57\x62\x33\xf3\xfa\xed\x6a\x63\x2d\x71\x34\xa4\x3b\x34\xc9\xca\x7d\x5b\x84\xf4",
    },
];

#[test]
fn an_offer_is_the_digest_of_the_draws(rt: HostRuntime) {
    let offers = [
        ([100, 101, 102, 103, 104, 105, 106, 107, 108, 109], OFFER),
        (
            [
                u64::MAX,
                0,
                1,
                1 << 63,
                0x0123_4567_89ab_cdef,
                1 << 8,
                1 << 16,
                1 << 32,
                1 << 40,
                1 << 56,
            ],
            b"\xec\x9b\x0d\xc9\xc2\x60\xed\x0b\xb5\x63\xe6\x6c\x36\x80\x00\xed\x80\xc5\xe3\xf7\xf4\x39\x80\xff\x3a\x77\xdb\x2d\xec\xf5\xd4\x88",
        ),
    ];
    for (draws, offer) in offers {
        assert_eq!(rt; offer_of(&Draws(draws)).as_slice(), offer.as_slice());
    }
}

#[test]
fn the_secret_is_the_front_of_the_offer(rt: HostRuntime) -> Result<(), Fail> {
    let secret = offered_secret(rt.alloc(), OFFER)?;
    let text = base32_text(rt.alloc(), secret.key())?;
    assert_eq!(rt; text.as_slice(), SECRET);
    Ok(())
}

/// The text at a place from 1, or none.
fn text_at(texts: &Sequence<Sequence<u8>>, number: usize) -> &[u8] {
    match texts.get(number.saturating_sub(1)) {
        Some(text) => text.as_slice(),
        None => b"",
    }
}

#[test]
fn codes_and_digests_go_by_number(rt: HostRuntime) -> Result<(), Fail> {
    let codes = offered_codes(rt.alloc(), OFFER, 12)?;
    let digests = offered_digests(rt.alloc(), OFFER, 12)?;
    assert_eq!(rt; codes.len(), 12);
    assert_eq!(rt; digests.digests().len(), 12);
    for CodeOf {
        number,
        code,
        digest,
    } in CODES {
        assert_eq!(rt; text_at(&codes, number), code);
        assert_eq!(rt;
            digests.digests().get(number.saturating_sub(1)),
            Some(digest)
        );
    }
    Ok(())
}

#[test]
fn the_page_of_an_action_shows_its_own_texts(rt: HostRuntime) -> Result<(), Fail> {
    let shown: [(Action, usize, &[u8], &[u8]); 5] = [
        (Action::Terms, 0, b"", b""),
        (Action::VerifyEmail, 0, b"", b""),
        (Action::UpdatePassword, 0, b"", b""),
        (Action::ConfigureOtp, 1, SECRET, b""),
        (Action::RecoveryCodes, 2, b"R4K42O3E7LGY", b"PYQCDAXTT62R"),
    ];
    for (action, count, first, second) in shown {
        let texts = shown_for(rt.alloc(), action, OFFER, 2)?;
        assert_eq!(rt; texts.len(), count);
        assert_eq!(rt; text_at(&texts, 1), first);
        assert_eq!(rt; text_at(&texts, 2), second);
    }
    Ok(())
}

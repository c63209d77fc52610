use crate::sample_lines::add_facts;
use crate::sample_realms::{FEW, FORM, Given, realm_of};
use crate::start::start_facts;
use facts::{Chronicle, Fact, Realm};
use login_base::{Moment, discard};
use std::alloc::Global;
use std::marker::Brand;
use std::process::Abort;
use std::sync::ledger::Blank;
use std::test::Fail;

/// The last serial and version over which a hall starts.
pub(crate) const LAST_START: u64 = (1 << 63) - (1 << 20);

/// Two of its names have accounts by then, which stay as they are.
const MORE: Given = (
    "orchard",
    &["app"],
    &[
        ("dan", true, Some(3)),
        ("zoe", true, Some(5)),
        ("ann", false, Some(8)),
        ("eve", false, None),
    ],
    FORM,
    &[],
);

const ONE: Given = ("garden", &["app"], &[("ann", true, None)], FORM, &[]);

const TWO: Given = (
    "garden",
    &["app"],
    &[("ann", true, None), ("bob", true, None)],
    FORM,
    &[],
);

const TURNED: Given = (
    "garden",
    &["app"],
    &[("bob", true, None), ("ann", true, None)],
    FORM,
    &[],
);

const SHOP: Given = ("garden", &["shop"], &[], FORM, &[]);

/// The built-in realm itself.
const SAME: Given = ("builtin", &["app"], &[], FORM, &[]);

const SHOP_FIRST: Given = ("builtin", &["shop", "app"], &[], FORM, &[]);

const APP_FIRST: Given = ("builtin", &["app", "shop"], &[], FORM, &[]);

/// The last stored serial, the realms with which a hall starts over it, one after the other, and
/// the facts that each start adds.
type Starts = (u64, &'static [(Option<Given>, &'static str)]);

/// Users are numbered in order, a password behind its user; those whose names have accounts are
/// left.
const USERS: [Starts; 3] = [
    (
        0,
        &[
            (
                Some(FEW),
                "realm 1 garden
user 1 ann
password 2 of user 1, 7 rounds
user 3 zoe
user 4 bob
user 4 is disabled
password 5 of user 4, 9 rounds
user 6 cid
user 6 is disabled
",
            ),
            (Some(FEW), ""),
            (
                Some(MORE),
                "realm 2 orchard
user 7 dan
password 8 of user 7, 3 rounds
user 9 eve
user 9 is disabled
",
            ),
            (None, ""),
            (Some(FEW), "realm 3 garden\n"),
        ],
    ),
    // The serials follow the last one.
    (
        40,
        &[
            (Some(ONE), "realm 1 garden\nuser 41 ann\n"),
            (Some(TWO), "realm 2 garden\nuser 42 bob\n"),
        ],
    ),
    (
        0,
        &[
            (Some(TWO), "realm 1 garden\nuser 1 ann\nuser 2 bob\n"),
            (Some(ONE), "realm 2 garden\n"),
        ],
    ),
];

/// Another realm than the one in force is put. Without one the realm in force stays, and the
/// built-in one is put where none is.
const REALMS: [Starts; 6] = [
    (
        0,
        &[(None, "realm 1 builtin\n"), (None, ""), (Some(SAME), "")],
    ),
    (0, &[(Some(SAME), "realm 1 builtin\n"), (None, "")]),
    (
        0,
        &[
            (Some(SHOP), "realm 1 garden\n"),
            (None, ""),
            (Some(SHOP), ""),
        ],
    ),
    // A realm that was in force once is put again.
    (
        0,
        &[
            (None, "realm 1 builtin\n"),
            (Some(SHOP), "realm 2 garden\n"),
            (Some(SAME), "realm 3 builtin\n"),
            (None, ""),
        ],
    ),
    // The order of the users counts.
    (
        0,
        &[
            (Some(TWO), "realm 1 garden\nuser 1 ann\nuser 2 bob\n"),
            (Some(TURNED), "realm 2 garden\n"),
            (Some(TURNED), ""),
        ],
    ),
    // So does that of the clients.
    (
        0,
        &[
            (Some(SHOP_FIRST), "realm 1 builtin\n"),
            (Some(APP_FIRST), "realm 2 builtin\n"),
        ],
    ),
];

/// Adds a fact to a chronicle.
pub(crate) fn add_fact(chronicle: &mut Chronicle, fact: Fact) -> Result<(), Fail> {
    let facts = [fact];
    let reserved = chronicle.reserve(&facts);
    discard(facts);
    reserved?;
    chronicle.add();
    Ok(())
}

/// A chronicle of one mark with this stored serial.
pub(crate) fn marked(alloc: Global, stored: u64) -> Result<Chronicle, Fail> {
    let mut chronicle = Chronicle::make(alloc);
    let mark = [Fact::Mark {
        tab_serial: 0,
        stored_serial: stored,
        used_moment: Moment::ZERO,
        stored_moment: Moment::ZERO,
    }];
    let reserved = chronicle.reserve(&mark);
    discard(mark);
    reserved?;
    chronicle.add();
    Ok(chronicle)
}

/// Adds the facts of a start, and answers their lines.
pub(crate) fn start_over(
    alloc: Global,
    chronicle: &mut Chronicle,
    realm: Option<Realm>,
) -> Result<Vec<u8>, Fail> {
    if chronicle.last_stored_serial() > LAST_START || chronicle.last_version() > LAST_START {
        return Err("the serials are used up".into());
    }
    let facts = start_facts::<Brand>(alloc, chronicle, realm, Blank::new(1))?;
    chronicle.reserve(facts.as_slice())?;
    chronicle.add();
    let mut text = Vec::new(alloc);
    add_facts(alloc, &mut text, facts.as_slice())?;
    Ok(text)
}

fn given_realm(alloc: Global, given: Option<Given>) -> Result<Option<Realm>, Fail> {
    match given {
        Some(given) => Ok(Some(realm_of(alloc, given)?)),
        None => Ok(None),
    }
}

/// Starts a hall with one realm after the other.
fn each_start_adds(rt: &impl Abort, alloc: Global, case: Starts) -> Result<(), Fail> {
    let (stored, starts) = case;
    let mut chronicle = marked(alloc, stored)?;
    for (given, lines) in starts {
        let realm = given_realm(alloc, *given)?;
        let text = start_over(alloc, &mut chronicle, realm)?;
        assert_eq!(rt; text.as_slice(), lines.as_bytes());
    }
    Ok(())
}

#[test]
fn a_start_adds_the_users_whose_names_have_no_account(rt: HostRuntime) -> Result<(), Fail> {
    for case in USERS {
        each_start_adds(&rt, rt.alloc(), case)?;
    }
    Ok(())
}

#[test]
fn a_start_puts_another_realm_than_the_one_in_force(rt: HostRuntime) -> Result<(), Fail> {
    for case in REALMS {
        each_start_adds(&rt, rt.alloc(), case)?;
    }
    Ok(())
}

//! Asks that break two rules at once or more: the first one is told.

use crate::sample_asks::Line;
use crate::sample_hall::{ANN, Asked, is_answered_twice, is_refused_twice};
use crate::sample_realms::PLAIN;
use std::test::Fail;

/// An unknown client is told before a root and a level that aren't there, and a wrong key before a
/// taken name.
const FIRST: [Asked; 6] = [
    (
        PLAIN,
        &[],
        Line::Open("shop", Some(1), None),
        "3 UnknownClient",
    ),
    (
        PLAIN,
        &[],
        Line::Open("shop", None, Some("high")),
        "3 UnknownClient",
    ),
    (
        PLAIN,
        &[ANN],
        Line::Acting(None, "ann"),
        "2 AdminRefused rule=UserTaken",
    ),
    (
        PLAIN,
        &[],
        Line::Acting(Some(7), "ann"),
        "2 AdminRefused rule=WrongKey",
    ),
    (
        PLAIN,
        &[],
        Line::Keyed(7, "ann"),
        "2 AdminRefused rule=WrongKey",
    ),
    (
        PLAIN,
        &[ANN],
        Line::Keyed(7, "ann"),
        "2 AdminRefused rule=WrongKey",
    ),
];

/// The realm's key opens the door to an administrator.
const KEYED: Asked = (
    PLAIN,
    &[],
    Line::Keyed(0, "ann"),
    "told user name=ann id=1
user 1 ann
refused 2 AdminRefused rule=UserTaken
",
);

#[test]
fn the_first_rule_that_is_broken_is_told(rt: HostRuntime) -> Result<(), Fail> {
    for case in FIRST {
        is_refused_twice(&rt, rt.alloc(), case)?;
    }
    Ok(())
}

#[test]
fn an_administrator_comes_in_by_the_key(rt: HostRuntime) -> Result<(), Fail> {
    is_answered_twice(&rt, rt.alloc(), KEYED)
}

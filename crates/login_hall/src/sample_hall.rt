//! Halls with asks that no script has.
ghost use Rattle.std.specs.Prelude.{◌≡◌, true, OnOk, IfOk};
ghost use Rattle.facts.specs.Realms.{has_realm};
ghost use Rattle.login_base.specs.Steps.{IsBlank};
ghost use Rattle.login_hall.specs.HallState.{facts_of};

use crate::sample_asks::{DRAWS, Line, MOMENT, ask_of};
use crate::sample_lines::{add_facts, spelled};
use crate::sample_realms::{Given, realm_of};
use crate::{Begun, Hall};
use facts::{Realm, Solved};
use login_base::{Steps, discard};
use reply_words::words_of;
use std::alloc::Global;
use std::marker::Brand;
use std::process::Abort;
use std::sync::ledger::{Blank, Ledger};
use std::test::Fail;

/// An ask that no script has: the realm, the asks before it, itself, and what is answered to it and
/// then to the same ask once more.
pub(crate) type Asked = (Given, &'static [Line], Line, &'static str);

pub(crate) const OPEN: Line = Line::Open("app", None, None);

pub(crate) const ANN: Line = Line::Add("ann", Some("pw1"));

/// Begins an ask, and hashes its password.
fn begun_line(alloc: Global, hall: &Hall, line: Line) -> Result<Solved, Fail>
    requires realm { has_realm (facts_of hall.now) ≡ true }
{
    match hall.begin(ask_of(alloc, line)?, &DRAWS) {
        Begun::Work(work) => Ok(work.solve()),
        Begun::Ready(solved) => Ok(solved),
    }
}

/// Adds the entry of an ask that was begun, and answers its reply and the lines of its facts.
fn ended<L: Ledger>(
    alloc: Global,
    hall: &mut Hall,
    solved: Solved,
    steps: &mut Steps<L>,
) -> Result<Vec<u8>, Fail>
    requires realm { has_realm (facts_of hall.old) ≡ true }
    ensures realm { OnOk result (has_realm (facts_of hall.new) ≡ true) }
{
    if !hall.has_serials() {
        discard(solved);
        return Err("the serials are used up".into());
    }
    let proposal = hall.propose(0, MOMENT, DRAWS, solved, steps)?;
    let mut lines = Vec::new(alloc);
    let added = add_facts(alloc, &mut lines, proposal.entry.added.as_slice());
    let reply = hall.adopt(proposal);
    let text = words_of(alloc, &reply);
    discard(reply);
    added?;
    let mut text = text?;
    text.push(b'\n')?;
    text.append(&mut lines)?;
    Ok(text)
}

/// A hall that has started with a realm.
fn started_hall(alloc: Global, realm: Realm) -> Result<Hall, Fail>
    ensures realm { IfOk result (λ hall. has_realm (facts_of hall) ≡ true) }
{
    let mut hall = Hall::make(alloc)?;
    let start = hall.start(Some(realm))?;
    hall.started(start);
    Ok(hall)
}

/// An ask that is answered at once.
fn entered<L: Ledger>(
    alloc: Global,
    hall: &mut Hall,
    line: Line,
    steps: &mut Steps<L>,
) -> Result<Vec<u8>, Fail>
    requires realm { has_realm (facts_of hall.old) ≡ true }
    ensures realm { OnOk result (has_realm (facts_of hall.new) ≡ true) }
{
    let solved = begun_line(alloc, hall, line)?;
    ended(alloc, hall, solved, steps)
}

/// Asks that come one after the other.
fn enter_all<L: Ledger>(
    alloc: Global,
    hall: &mut Hall,
    lines: &[Line],
    steps: &mut Steps<L>,
) -> Result<(), Fail>
    requires realm { has_realm (facts_of hall.old) ≡ true }
    ensures realm { OnOk result (has_realm (facts_of hall.new) ≡ true) }
{
    for line in lines {
        let _text = entered(alloc, hall, *line, steps)?;
    }
    Ok(())
}

/// What an ask is answered, and then the same ask once more.
fn asked_twice<L: Ledger>(
    alloc: Global,
    realm: Realm,
    case: Asked,
    blank: Blank,
) -> Result<Vec<u8>, Fail>
    requires blank { IsBlank blank L.name L.parts }
{
    let (_, before, line, _) = case;
    let mut steps = Steps::<L>::new(blank);
    let mut hall = started_hall(alloc, realm)?;
    enter_all(alloc, &mut hall, before, &mut steps)?;
    let mut text = entered(alloc, &mut hall, line, &mut steps)?;
    let mut again = entered(alloc, &mut hall, line, &mut steps)?;
    text.append(&mut again)?;
    Ok(text)
}

fn is_answered(rt: &impl Abort, alloc: Global, case: Asked, text: &str) -> Result<(), Fail> {
    let (given, _, _, _) = case;
    let realm = realm_of(alloc, given)?;
    let answered = asked_twice::<Brand>(alloc, realm, case, Blank::new(1))?;
    assert_eq!(rt; answered.as_slice(), spelled(alloc, text)?.as_bytes());
    Ok(())
}

pub(crate) fn is_answered_twice(rt: &impl Abort, alloc: Global, case: Asked) -> Result<(), Fail> {
    let (_, _, _, text) = case;
    is_answered(rt, alloc, case, text)
}

/// The ask is refused and adds nothing, so that the same ask is refused so again.
pub(crate) fn is_refused_twice(rt: &impl Abort, alloc: Global, case: Asked) -> Result<(), Fail> {
    let (_, _, _, refusal) = case;
    let text = format!(in alloc; "refused {refusal}\nrefused {refusal}\n")?;
    is_answered(rt, alloc, case, &text)
}

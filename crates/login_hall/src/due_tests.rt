//! What asks are due over chronicles made by hand.
ghost use Rattle.login_base.specs.Steps.{IsBlank};

use crate::due::due;
use crate::sample_asks::{DRAWS, Line, MOMENT, ask_of, id};
use crate::sample_hall::OPEN;
use crate::sample_lines::{add_facts, spelled};
use crate::sample_realms::{FEW, realm_of};
use crate::start_tests::{LAST_START, add_fact, marked, start_over};
use facts::{Chronicle, Fact, Finding, Solved};
use hall_answers::{Answer, Setting};
use login_base::{Moment, RootKey, SessionId, Steps, TabKey, UserId, discard};
use reply_words::words_of;
use std::alloc::Global;
use std::marker::Brand;
use std::process::Abort;
use std::sync::ledger::{Blank, Ledger};
use std::test::Fail;

/// What an ask is due over a chronicle.
#[tactic(auto, unfolding(facts::specs::Realms::has_realm))]
fn due_over<L: Ledger>(
    alloc: Global,
    chronicle: &Chronicle,
    solved: &Solved,
    blank: Blank,
) -> Result<Answer, Fail>
    requires blank { IsBlank blank L.name L.parts }
{
    if chronicle.last_tab_serial() > LAST_START
        || chronicle.last_stored_serial() > LAST_START
        || chronicle.last_version() > LAST_START
    {
        return Err("the serials are used up".into());
    }
    if chronicle.current_realm().is_none() {
        return Err("there is no realm".into());
    }
    let mut steps = Steps::<L>::new(blank);
    let setting = Setting::at(alloc, chronicle, Moment::clamped(MOMENT), &DRAWS);
    Ok(due(&setting, solved, &mut steps)?)
}

/// What an ask with a finding is answered over a chronicle, which its facts join: the reply, and
/// the lines of the facts.
fn answered_over(
    alloc: Global,
    chronicle: &mut Chronicle,
    line: Line,
    finding: Finding,
) -> Result<Vec<u8>, Fail> {
    let solved = Solved::of_journal(ask_of(alloc, line)?, finding).ok_or("another finding")?;
    let answer = due_over::<Brand>(alloc, chronicle, &solved, Blank::new(1));
    discard(solved);
    let Answer { reply, added } = answer?;
    let text = words_of(alloc, &reply);
    discard(reply);
    let mut text = text?;
    text.push(b'\n')?;
    add_facts(alloc, &mut text, added.as_slice())?;
    chronicle.reserve(added.as_slice())?;
    chronicle.add();
    Ok(text)
}

// ---- tabs as no ask leaves them yet

/// A fact about the tab 2 of the root 1, or a user.
#[derive(Clone, Copy)]
enum Made {
    Named(u64),
    Completed(u64),
    /// A live session of this user in the root.
    Session(u64),
    Disabled(u64),
}

fn fact_of(made: Made) -> Fact {
    let tab = TabKey(id(2));
    let session = SessionId(id(7));
    let moment = Moment::clamped(MOMENT);
    match made {
        Made::Named(user) => Fact::Named {
            tab,
            user: UserId(user),
        },
        Made::Completed(user) => Fact::Completed {
            tab,
            user: UserId(user),
            session,
            moment,
        },
        Made::Session(user) => Fact::Session {
            session,
            root: Some(RootKey(id(1))),
            user: UserId(user),
            moment,
            idle: 1_800,
            max: 36_000,
        },
        Made::Disabled(user) => Fact::Disabled { user: UserId(user) },
    }
}

/// Facts behind the opening of a tab, an ask with its password gone, the serial of the password
/// that fitted it, and what it is answered.
type MadeTab = (&'static [Made], Line, Option<u64>, &'static str);

/// The users are ann 1 and zoe 3, and the disabled bob 4 and cid 6.
const SPLIT: [MadeTab; 6] = [
    (
        &[Made::Named(1), Made::Session(3)],
        Line::Page(9),
        None,
        "refused 7 UnknownTab\n",
    ),
    (
        &[Made::Named(1), Made::Completed(1), Made::Session(3)],
        Line::Page(1),
        None,
        "refused 10 OtherUser tab=ann session=zoe\n",
    ),
    (
        &[Made::Named(1), Made::Session(4)],
        Line::Page(1),
        None,
        "refused 10 OtherUser tab=ann session=bob\n",
    ),
    (
        &[Made::Named(1), Made::Session(3)],
        Line::Post(1, ("form", "ann", ""), 9),
        Some(2),
        "refused 9 Stale current=[3]\n",
    ),
    // The user of the tab is told, and not the one whom the post names.
    (
        &[Made::Named(1), Made::Session(3)],
        Line::Post(1, ("form", "cid", ""), 3),
        Some(0),
        "refused 10 OtherUser tab=ann session=zoe\n",
    ),
    // The tab has completed, the execution isn't asked, the user is disabled and has another
    // password than the one that was checked.
    (
        &[Made::Named(1), Made::Completed(1), Made::Session(4)],
        Line::Post(1, ("other", "bob", ""), 3),
        Some(9),
        "refused 10 OtherUser tab=ann session=bob\n",
    ),
];

const WHOLE: [MadeTab; 3] = [
    (
        &[Made::Named(1), Made::Completed(1), Made::Disabled(1)],
        Line::Page(1),
        None,
        "refused 11 Finished\n",
    ),
    // The password was checked against another one than bob's.
    (
        &[],
        Line::Post(1, ("form", "bob", ""), 3),
        Some(9),
        "refused 14 Disabled\n",
    ),
    // The session is live in the root already.
    (
        &[Made::Session(1)],
        Line::Post(1, ("form", "ann", ""), 3),
        Some(2),
        "done session=[7] user=ann level=0
tab 2 named
secret 2 passed
session 7 seen
tab 2 completed
",
    ),
];

/// A chronicle of users, a tab that was opened, and these facts.
fn chronicle_of(alloc: Global, made: &[Made]) -> Result<Chronicle, Fail> {
    let mut chronicle = marked(alloc, 0)?;
    let _users = start_over(alloc, &mut chronicle, Some(realm_of(alloc, FEW)?))?;
    let _page = answered_over(alloc, &mut chronicle, OPEN, Finding::None)?;
    for made in made {
        add_fact(&mut chronicle, fact_of(*made))?;
    }
    Ok(chronicle)
}

fn is_due(rt: &impl Abort, alloc: Global, case: MadeTab) -> Result<(), Fail> {
    let (made, line, had, text) = case;
    let mut chronicle = chronicle_of(alloc, made)?;
    let finding = match had {
        Some(had) => Finding::Checked { had, fits: true },
        None => Finding::None,
    };
    let answered = answered_over(alloc, &mut chronicle, line, finding)?;
    assert_eq!(rt; answered.as_slice(), spelled(alloc, text)?.as_bytes());
    Ok(())
}

#[test]
fn a_split_tab_is_refused_behind_a_stale_code(rt: HostRuntime) -> Result<(), Fail> {
    for case in SPLIT {
        is_due(&rt, rt.alloc(), case)?;
    }
    Ok(())
}

#[test]
fn a_tab_that_is_whole_goes_on_in_order(rt: HostRuntime) -> Result<(), Fail> {
    for case in WHOLE {
        is_due(&rt, rt.alloc(), case)?;
    }
    Ok(())
}

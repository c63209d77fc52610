ghost use Rattle.std.specs.Prelude.{◌≡◌, ◌<◌, ◌+◌, ◌++◌, length, map, drop, fold};
ghost use Rattle.std.specs.Prelude.{option_map, slice_get, IfOk, OnOk, Some};
ghost use Rattle.facts.specs.declared.tabs.RootSession.{RootSession};
ghost use Rattle.facts.specs.Sessions.{is_standing, session_begun, session_later, session_left, outlived_sessions};
ghost use Rattle.root_states.specs.Outlived.{outlived_ids, outlived_id};

use fact_scans::{Pick, ended_by, last_by, seen_at};
use facts::{Chronicle, Fact, Facts, Fold, RootSession, Subject, fold_in};
use login_base::{Memory, Moment, Sequence, SessionId, Steps, same_id};
use std::alloc::Global;
use std::sync::ledger::Ledger;

/// Picks whether a session begins or ends.
#[derive(Clone, Copy, Debug)]
struct Stands {
    session: SessionId,
}

impl Pick for Stands {
    ghost use Rattle.facts.specs.Sessions.{stands_by};
    ghost use Rattle.facts.specs.Subjects.{is_of_session};
    ghost use Rattle.root_states.specs.About.{of_standing};

    type Out = bool;

    ghost pick = { λ s. stands_by s.session };

    ghost about = { λ s. is_of_session s.session };

    fn of(&self, fact: &Fact) -> Option<bool> {
        match fact {
            Fact::Session { session, .. } if same_id(&session.0, &self.session.0) => Some(true),
            Fact::SessionEnd { session } if same_id(&session.0, &self.session.0) => Some(false),
            _ => None,
        }
    }

    fn is_about(&self, subject: Subject) -> bool {
        subject.is_of_session(self.session)
    }

    ghost only = { λ s. of_standing s.session };
}

/// Whether there is a session of this id that hasn't been ended.
#[tactic(auto, unfolding(facts::specs::Sessions::is_standing))]
pub fn is_standing<L: Ledger>(facts: &Facts<'_>, session: SessionId, steps: &mut Steps<L>) -> bool
    ensures value { result ≡ is_standing session facts.now }
{
    last_by(facts, &Stands { session }, steps).unwrap_or(false)
}

/// Carries a session: it is used, or ended.
#[derive(Clone, Copy, Debug)]
struct Later;

impl Fold for Later {
    ghost use Rattle.facts.specs.Sessions.{session_later};

    type Carried = Option<RootSession>;

    ghost carry = { λ _. session_later };

    fn after(&self, carried: &mut Option<RootSession>, fact: &Fact) {
        match fact {
            Fact::Seen { session, moment } => *carried = seen_at(*carried, session, *moment),
            Fact::SessionEnd { session } => *carried = ended_by(*carried, session),
            _ => {}
        }
    }
}

/// The session that a fact begins.
fn session_begun(fact: &Fact) -> Option<RootSession>
    ensures { result ≡ session_begun fact.now }
{
    match fact {
        Fact::Session {
            session,
            user,
            moment,
            idle,
            max,
            ..
        } => Some(RootSession {
            session: *session,
            user: *user,
            opened: *moment,
            seen: *moment,
            idle: *idle,
            max: *max,
        }),
        _ => None,
    }
}

/// The session that the fact at a place begins. It is read only where it is about a session.
#[tactic(auto, using(crate::proofs::OutlivedLemmas::none_begun_at))]
fn begun_at<L: Ledger>(
    chronicle: &Chronicle,
    index: usize,
    steps: &mut Steps<L>,
) -> Option<RootSession>
    requires within { index < length chronicle.now.list }
    ensures { option_map session_begun (slice_get chronicle.now.list index) ≡ Some result }
{
    if !chronicle.subject(index).is_session() {
        return None;
    }
    session_begun(chronicle.at(index, steps))
}

/// What the fact at a place makes of a session. It is read only where it is about the session.
#[tactic(auto, using(crate::proofs::OutlivedLemmas::same_at))]
fn left_at<L: Ledger>(
    own: RootSession,
    chronicle: &Chronicle,
    index: usize,
    steps: &mut Steps<L>,
) -> Option<RootSession>
    requires within { index < length chronicle.now.list }
    ensures { option_map (session_later (Some own)) (slice_get chronicle.now.list index) ≡ Some result }
{
    let is_about = chronicle.subject(index).is_of_session(own.session);
    let mut left = Some(own);
    if is_about {
        Later.after(&mut left, chronicle.at(index, steps));
    }
    left
}

/// What the facts of a chronicle behind a place make of a session. None is read behind its end.
fn left_kept<L: Ledger>(
    own: RootSession,
    chronicle: &Chronicle,
    index: usize,
    steps: &mut Steps<L>,
) -> Option<RootSession>
    requires within { index < length chronicle.now.list }
    ensures { result ≡ fold session_later (Some own) (drop (index + 1) chronicle.now.list) }
{
    let len = chronicle.len();
    let mut left = own;
    for i in index + 1..len {
        left = left_at(left, chronicle, i, steps)?;
    }
    Some(left)
}

/// The session that the fact at a place of a chronicle begins, after the facts behind it.
fn left_of<L: Ledger>(
    chronicle: &Chronicle,
    more: &[Fact],
    index: usize,
    steps: &mut Steps<L>,
) -> Option<RootSession>
    requires within { index < length chronicle.now.list }
    ensures { option_map (λ fact. session_left fact (drop (index + 1) chronicle.now.list ++ more.now))
        (slice_get chronicle.now.list index) ≡ Some result }
{
    let own = begun_at(chronicle, index, steps)?;
    let left = left_kept(own, chronicle, index, steps)?;
    fold_in(more, &Later, Some(left))
}

/// Adds the id of a session that doesn't live any more.
fn add_outlived(
    now: Moment,
    ended: &mut Sequence<SessionId>,
    left: Option<RootSession>,
) -> Result<(), Memory>
    ensures { OnOk result (ended.new ≡ ended.old ++ outlived_id now left) }
{
    match left {
        Some(own) if !own.is_live(now) => ended.push(own.session),
        _ => Ok(()),
    }
}

/// Adds those that a chronicle's facts begin.
fn add_kept<L: Ledger>(
    now: Moment,
    ended: &mut Sequence<SessionId>,
    chronicle: &Chronicle,
    more: &[Fact],
    steps: &mut Steps<L>,
) -> Result<(), Memory>
    ensures { OnOk result (ended.old ++ outlived_ids now (chronicle.now.list ++ more.now)
        ≡ ended.new ++ outlived_ids now more.now) }
{
    for i in 0..chronicle.len() {
        let left = left_of(chronicle, more, i, steps);
        add_outlived(now, ended, left)?;
    }
    Ok(())
}

/// Adds those that these facts begin.
fn add_more(now: Moment, ended: &mut Sequence<SessionId>, more: &[Fact]) -> Result<(), Memory>
    ensures { OnOk result (ended.new ≡ ended.old ++ outlived_ids now more.now) }
{
    let mut rest = more;
    while let Some((fact, later)) = rest.split_first() {
        let left = fold_in(later, &Later, session_begun(fact));
        add_outlived(now, ended, left)?;
        rest = later;
    }
    Ok(())
}

/// The sessions that haven't been ended and don't live any more at the moment `now`, in the order
/// in which they began.
pub fn outlived_sessions<L: Ledger>(
    alloc: Global,
    facts: &Facts<'_>,
    now: Moment,
    steps: &mut Steps<L>,
) -> Result<Sequence<SessionId>, Memory>
    ensures ok { IfOk result (λ ended. ended
        ≡ map (λ (own : RootSession). own.session) (outlived_sessions now facts.now)) }
{
    let (chronicle, more) = facts.parts();
    let mut ended = Sequence::new(alloc);
    add_kept(now, &mut ended, chronicle, more, steps)?;
    add_more(now, &mut ended, more)?;
    Ok(ended)
}

//! What the ending of sessions is due.
ghost use Rattle.std.specs.Prelude.{◌≡◌, ◌++◌, map, IfOk, OnOk};
ghost use Rattle.facts.specs.declared.fact.Fact.TheVariants as events;
ghost use Rattle.admin_asks.specs.Ending.{check_session, revoked_text, answer_to_revoke, due_revoke, swept_text, answer_to_sweep, due_sweep};

use facts::{Fact, Facts, What};
use hall_answers::{Answer, Refusal, Setting, refused};
use login_base::{Memory, Sequence, SessionId, Steps, id_text};
use root_states::{is_standing, outlived_sessions};
use std::alloc::Global;
use std::sync::ledger::Ledger;

/// There is a session of this id that hasn't been ended.
#[tactic(auto, unfolding(crate::specs::Ending::check_session))]
fn check_session<L: Ledger>(
    facts: &Facts<'_>,
    session: SessionId,
    steps: &mut Steps<L>,
) -> Result<(), Refusal>
    ensures { result ≡ check_session facts.now session }
{
    if is_standing(facts, session, steps) {
        Ok(())
    } else {
        Err(Refusal::NoSuchSession)
    }
}

fn revoked_text(alloc: Global, session: SessionId) -> Result<Sequence<u8>, Memory>
    ensures { IfOk result (λ text. text ≡ revoked_text session) }
{
    let mut text = Vec::new(alloc);
    text.extend_from_slice(b"revoked session=")?;
    text.extend_from_slice(&id_text(&session.0))?;
    Ok(Sequence::from_vec(text))
}

/// The session is over.
fn answer_to_revoke(alloc: Global, session: SessionId) -> Result<Answer, Memory>
    ensures { IfOk result (λ answer. answer ≡ answer_to_revoke session tt) }
{
    let text = revoked_text(alloc, session)?;
    let mut added = Sequence::new(alloc);
    added.push(Fact::SessionEnd { session })?;
    Ok(Answer::plain(What::Told { text }, added))
}

/// What it is due to revoke a session.
#[tactic(auto, unfolding(crate::specs::Ending::due_revoke))]
pub(crate) fn due_revoke<L: Ledger>(
    setting: &Setting<'_>,
    session: SessionId,
    steps: &mut Steps<L>,
) -> Result<Answer, Memory>
    ensures { IfOk result (λ answer. answer ≡ due_revoke setting.now session) }
{
    let facts = setting.facts();
    match check_session(&facts, session, steps) {
        Ok(()) => answer_to_revoke(setting.alloc, session),
        Err(refusal) => refused(setting.alloc, &facts, None, refusal, steps),
    }
}

fn swept_text(alloc: Global, count: usize) -> Result<Sequence<u8>, Memory>
    ensures { IfOk result (λ text. text ≡ swept_text count) }
{
    let mut text = Vec::new(alloc);
    text.extend_from_slice(b"swept count=")?;
    let number = count.to_string(alloc)?;
    text.extend_from_slice(number.as_bytes())?;
    Ok(Sequence::from_vec(text))
}

/// Each of these sessions is over.
fn end_facts(alloc: Global, ended: &[SessionId]) -> Result<Sequence<Fact>, Memory>
    ensures { IfOk result (λ added. added ≡ map events.SessionEnd ended.now) }
{
    let mut added = Sequence::new(alloc);
    for session in ended {
        added.push(Fact::SessionEnd { session: *session })?;
    }
    Ok(added)
}

fn answer_to_sweep(alloc: Global, ended: &[SessionId]) -> Result<Answer, Memory>
    ensures { IfOk result (λ answer. answer ≡ answer_to_sweep ended.now) }
{
    let text = swept_text(alloc, ended.len())?;
    let added = end_facts(alloc, ended)?;
    Ok(Answer::plain(What::Told { text }, added))
}

/// What a sweep is due: the end of each session that doesn't live any more.
#[tactic(auto, unfolding(crate::specs::Ending::due_sweep))]
pub(crate) fn due_sweep<L: Ledger>(
    setting: &Setting<'_>,
    steps: &mut Steps<L>,
) -> Result<Answer, Memory>
    ensures { IfOk result (λ answer. answer ≡ due_sweep setting.now) }
{
    let ended = outlived_sessions(setting.alloc, &setting.facts(), setting.moment, steps)?;
    answer_to_sweep(setting.alloc, ended.as_slice())
}

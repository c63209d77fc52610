ghost use Rattle.std.specs.Prelude.{◌≡◌, ◌^◌, ◌++◌, IfOk, OnOk};
ghost use Rattle.hall_answers.specs.HasSerials.{HasSerials};
ghost use Rattle.tab_pages.specs.Pages.{session_for, beginning, levels_recorded, seen_now, completion_facts, completion};

use facts::{Fact, Facts, RootSession, What};
use hall_answers::{Answer, Setting, next_session, who_named};
use login_base::{Memory, RootKey, Sequence, SessionId, Steps, UserId};
use login_progress::KnownTab;
use std::sync::ledger::Ledger;

/// The live session, or a new one.
fn session_for(facts: &Facts<'_>, setting: &Setting<'_>, live: &Option<RootSession>) -> SessionId
    requires serials { HasSerials facts.now (2 ^ 63) }
    ensures { result ≡ session_for facts.now setting.now.draws live.now }
{
    match live {
        Some(own) => own.session,
        None => next_session(facts, setting.draws),
    }
}

/// Adds the beginning of a session where none is live.
fn add_beginning(
    setting: &Setting<'_>,
    session: SessionId,
    root: RootKey,
    user: UserId,
    live: &Option<RootSession>,
    added: &mut Sequence<Fact>,
) -> Result<(), Memory>
    ensures { OnOk result (added.new ≡ added.old ++ beginning setting.now session root user live.now) }
{
    if live.is_some() {
        return Ok(());
    }
    let limits = setting.realm.parts().session;
    added.push(Fact::Session {
        session,
        root: Some(root),
        user,
        moment: setting.moment,
        idle: limits.idle,
        max: limits.max,
    })
}

/// Adds that the session has reached these levels.
fn add_levels(
    setting: &Setting<'_>,
    session: SessionId,
    levels: &[u32],
    added: &mut Sequence<Fact>,
) -> Result<(), Memory>
    ensures { OnOk result (added.new ≡ added.old ++ levels_recorded setting.now session levels.now) }
{
    let moment = setting.moment;
    for level in levels {
        added.push(Fact::Level {
            session,
            level: *level,
            moment,
        })?;
    }
    Ok(())
}

/// Adds the use of a live session.
pub fn add_seen(
    setting: &Setting<'_>,
    live: &Option<RootSession>,
    added: &mut Sequence<Fact>,
) -> Result<(), Memory>
    ensures ok { OnOk result (added.new ≡ added.old ++ seen_now setting.now live.now) }
{
    match live {
        Some(own) => added.push(Fact::Seen {
            session: own.session,
            moment: setting.moment,
        }),
        None => Ok(()),
    }
}

/// What a completion adds.
fn completion_facts(
    setting: &Setting<'_>,
    known: &KnownTab,
    user: UserId,
    levels: &[u32],
    session: SessionId,
    live: &Option<RootSession>,
) -> Result<Sequence<Fact>, Memory>
    ensures { IfOk result (λ added. added ≡
        completion_facts setting.now known.now user levels.now session live.now) }
{
    let mut added = Sequence::new(setting.alloc);
    add_beginning(setting, session, known.root, user, live, &mut added)?;
    add_levels(setting, session, levels, &mut added)?;
    add_seen(setting, live, &mut added)?;
    added.push(Fact::Completed {
        tab: known.tab,
        user,
        session,
        moment: setting.moment,
    })?;
    Ok(added)
}

/// The login completes, and records these levels.
#[tactic(auto, unfolding(crate::specs::Pages::completion))]
pub(crate) fn completion<L: Ledger>(
    facts: &Facts<'_>,
    setting: &Setting<'_>,
    known: &KnownTab,
    user: UserId,
    levels: &[u32],
    steps: &mut Steps<L>,
) -> Result<Answer, Memory>
    requires serials { HasSerials facts.now (2 ^ 63) }
    ensures { IfOk result (λ answer. answer ≡ completion facts.now setting.now known.now user levels.now) }
{
    let live = known.state.live_session(setting.moment);
    let session = session_for(facts, setting, &live);
    let added = completion_facts(setting, known, user, levels, session, &live)?;
    let what = What::Done {
        session,
        user: who_named(setting.alloc, facts, user, steps)?,
        level: known.opening.level,
    };
    Ok(Answer::in_tab(known.tab, what, added))
}

ghost use Rattle.std.specs.Prelude.{◌≡◌, IfOk};
ghost use Rattle.flow_tree.specs.Flow.{flow_needs};
ghost use Rattle.login_progress.specs.Progress.{lacking, granted_for, holding, progress_by, progress_in, progress_of, asked_in, action_in};

use crate::asked::asked_of;
use crate::blocked::blocked;
use crate::known_tab::KnownTab;
use crate::login::{Login, login_in};
use fact_scans::{first_pending, realm_of};
use facts::{Action, Facts, Need};
use flow_tree::{Tree, Truths};
use flow_truths::{is_granted, levels_reached, truths_of};
use login_base::{Memory, Moment, Name, Sequence, Steps, UserId};
use std::alloc::Global;
use std::sync::ledger::Ledger;

/// How far a login has come.
#[derive(Debug, Drop)]
pub enum Progress {
    /// The flow holds for this user, and the asked level is granted. A completion records these
    /// levels, ascending.
    Ready { user: UserId, levels: Sequence<u32> },
    /// These executions are asked.
    Asked { asked: Sequence<Need> },
    /// Nothing is asked, and this deny is needed.
    Denied { execution: Name },
    /// Nothing is asked, and the user hasn't set this one up.
    NotConfigured { execution: Name },
    /// Nothing is asked, or the flow holds for nobody.
    DeadEnd,
    /// The flow holds for a known user, but this level, which the tab asks, isn't granted.
    LevelMissed { level: u32 },
    /// The flow holds for this user, the asked level is granted, and this action is the first one that
    /// is pending.
    Required { user: UserId, action: Action },
}

impl Progress {
    /// The executions that are asked.
    pub fn asked(&self) -> &[Need]
        ensures value { result.now ≡ asked_in self.now }
    {
        match self {
            Progress::Asked { asked } => asked.as_slice(),
            _ => &[],
        }
    }

    /// The action that is asked.
    pub fn action(&self) -> Option<Action>
        ensures value { result ≡ action_in self.now }
    {
        match self {
            Progress::Required { action, .. } => Some(*action),
            _ => None,
        }
    }
}

/// What is asked of these needs, or why nothing is.
fn lacking(alloc: Global, login: &Login, tree: &Tree, needs: &[Name]) -> Result<Progress, Memory>
    ensures { IfOk result (λ progress. progress ≡ lacking login.now tree.now needs.now) }
{
    let asked = asked_of(alloc, tree, login, needs)?;
    if asked.is_empty() {
        blocked(alloc, tree, &login.view.account, needs)
    } else {
        Ok(Progress::Asked { asked })
    }
}

/// What a flow that holds comes to for this user.
fn granted_for<L: Ledger>(
    alloc: Global,
    facts: &Facts<'_>,
    login: &Login,
    truths: &Truths,
    tree: &Tree,
    user: UserId,
    steps: &mut Steps<L>,
) -> Result<Progress, Memory>
    ensures { IfOk result (λ progress. progress ≡ granted_for facts.now login.now truths.now.held tree.now user) }
{
    let level = login.view.level;
    if !is_granted(&login.view, truths, tree) {
        return Ok(Progress::LevelMissed { level });
    }
    if let Some(action) = first_pending(facts, user, steps) {
        return Ok(Progress::Required { user, action });
    }
    let levels = levels_reached(alloc, truths, level, tree)?;
    Ok(Progress::Ready { user, levels })
}

/// How far a login has come, by what is true of its flow.
fn progress_by<L: Ledger>(
    alloc: Global,
    facts: &Facts<'_>,
    login: &Login,
    truths: &Truths,
    tree: &Tree,
    who: Option<UserId>,
    steps: &mut Steps<L>,
) -> Result<Progress, Memory>
    ensures { IfOk result (λ progress. progress ≡ progress_by facts.now login.now truths.now.held tree.now who) }
{
    if !tree.holds_by(truths) {
        let needs = tree.needs_by(truths)?;
        return lacking(alloc, login, tree, needs.as_slice());
    }
    match who {
        Some(user) => granted_for(alloc, facts, login, truths, tree, user, steps),
        None => Ok(Progress::DeadEnd),
    }
}

/// How far a login in a tab has come on a flow, for a user who may be unknown.
#[tactic(auto, unfolding(crate::specs::Progress::progress_in))]
fn progress_in<L: Ledger>(
    alloc: Global,
    facts: &Facts<'_>,
    moment: Moment,
    known: &KnownTab,
    who: Option<UserId>,
    tree: &Tree,
    steps: &mut Steps<L>,
) -> Result<Progress, Memory>
    ensures { IfOk result (λ progress. progress ≡ progress_in facts.now moment known.now who tree.now) }
{
    let login = login_in(alloc, facts, moment, known, who, tree, steps)?;
    let truths = truths_of(alloc, &login.view, tree)?;
    progress_by(alloc, facts, &login, &truths, tree, who, steps)
}

/// How far the login in a tab has come, under the realm with which the tab was opened.
#[tactic(auto, unfolding(crate::specs::Progress::progress_of))]
pub fn progress_of<L: Ledger>(
    alloc: Global,
    facts: &Facts<'_>,
    moment: Moment,
    known: &KnownTab,
    steps: &mut Steps<L>,
) -> Result<Progress, Memory>
    ensures ok { IfOk result (λ progress. progress ≡ progress_of facts.now moment known.now) }
{
    match realm_of(facts, known.opening.version, steps) {
        Some(realm) => {
            let who = known.state.who(moment);
            progress_in(alloc, facts, moment, known, who, &realm.parts().flow, steps)
        }
        None => Ok(Progress::DeadEnd),
    }
}

ghost use Rattle.std.specs.Prelude.{◌≡◌, IfOk};
ghost use Rattle.login_progress.specs.Login.{levels_in, login_in};

use crate::account::account_of;
use crate::evidence::passed_of;
use crate::known_tab::KnownTab;
use conditions::LevelView;
use facts::{Facts, RootSession};
use flow_tree::Tree;
use flow_truths::LoginView;
use login_base::{Memory, Moment, Steps, UserId};
use root_states::levels_of;
use std::alloc::Global;
use std::sync::ledger::Ledger;

/// What a login's flow is judged by, and what its pages ask.
#[derive(Debug, Drop)]
pub struct Login {
    pub view: LoginView,
    /// The number of the user's next recovery code, from 1.
    pub next_code: Option<u32>,
}

/// The levels that a live session has reached.
fn levels_in<L: Ledger>(
    alloc: Global,
    facts: &Facts<'_>,
    live: Option<RootSession>,
    steps: &mut Steps<L>,
) -> Result<Option<LevelView>, Memory>
    ensures { IfOk result (λ levels. levels ≡ levels_in facts.now live) }
{
    match live {
        Some(own) => Ok(Some(LevelView {
            levels: levels_of(alloc, facts, own.session, steps)?,
        })),
        None => Ok(None),
    }
}

/// What the flow of a tab is judged by, for a user who may be unknown.
#[tactic(auto, unfolding(crate::specs::Login::login_in))]
pub(crate) fn login_in<L: Ledger>(
    alloc: Global,
    facts: &Facts<'_>,
    moment: Moment,
    known: &KnownTab,
    who: Option<UserId>,
    tree: &Tree,
    steps: &mut Steps<L>,
) -> Result<Login, Memory>
    ensures { IfOk result (λ login. login ≡ login_in facts.now moment known.now who tree.now) }
{
    let live = known.state.live_session(moment);
    let levels = levels_in(alloc, facts, live, steps)?;
    let account = account_of(alloc, facts, who, steps)?;
    let leaves = tree.leaves()?;
    let counted = passed_of(alloc, facts, known.tab, who, leaves.as_slice(), steps)?;
    let view = LoginView {
        account: account.view,
        levels,
        level: known.opening.level,
        moment: moment.millis(),
        counted,
    };
    Ok(Login {
        view,
        next_code: account.next_code,
    })
}

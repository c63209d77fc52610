ghost use Rattle.std.specs.Prelude.{◌≡◌, IfOk};
ghost use Rattle.root_asks.specs.Logout.{live_in, end_facts, due_logout};

use facts::{Fact, RootSession, What};
use hall_answers::{Answer, Setting};
use login_base::{Memory, RootKey, Sequence, Steps};
use root_states::root_state;
use std::alloc::Global;
use std::sync::ledger::Ledger;

/// The live session of the root, if one is given.
fn live_in<L: Ledger>(
    setting: &Setting<'_>,
    root: &Option<RootKey>,
    steps: &mut Steps<L>,
) -> Option<RootSession>
    ensures { result ≡ live_in setting.now root.now }
{
    match root {
        Some(root) => {
            let state = root_state(&setting.facts(), *root, setting.moment, steps);
            state.live_session(setting.moment)
        }
        None => None,
    }
}

/// The session is over.
fn end_facts(alloc: Global, live: &Option<RootSession>) -> Result<Sequence<Fact>, Memory>
    ensures { IfOk result (λ ended. ended ≡ end_facts live.now) }
{
    let mut ended = Sequence::new(alloc);
    if let Some(own) = live {
        ended.push(Fact::SessionEnd {
            session: own.session,
        })?;
    }
    Ok(ended)
}

/// What a logout is due.
#[tactic(auto, unfolding(crate::specs::Logout::due_logout))]
pub fn due_logout<L: Ledger>(
    setting: &Setting<'_>,
    root: &Option<RootKey>,
    steps: &mut Steps<L>,
) -> Result<Answer, Memory>
    ensures ok { IfOk result (λ answer. answer ≡ due_logout setting.now root.now) }
{
    let live = live_in(setting, root, steps);
    let ended = end_facts(setting.alloc, &live)?;
    Ok(Answer::plain(What::LoggedOut, ended))
}

//! The root in which an open opens its tab, and whether there is room for it.
ghost use Rattle.std.specs.Prelude.{◌≡◌, ◌-◌, ◌^◌, IfOk};
ghost use Rattle.hall_answers.specs.HasSerials.{HasSerials};
ghost use Rattle.root_asks.specs.NewTab.{root_given, check_roots, check_root_tabs, check_tabs, check_room, place_at};

use crate::place::{GivenRoot, Place};
use fact_scans::last_tab_serial;
use hall_answers::{Refusal, Setting, root_key, tab_key};
use login_base::{Memory, RootKey, Steps};
use root_states::{has_root_room, has_tab_room, root_state};
use std::sync::ledger::Ledger;

/// The root that is given, where it is known. One above the counter was never made.
#[tactic(auto, unfolding(crate::specs::NewTab::root_given))]
pub(crate) fn root_given<L: Ledger>(
    setting: &Setting<'_>,
    root: &Option<RootKey>,
    steps: &mut Steps<L>,
) -> Option<GivenRoot>
    ensures { result ≡ root_given setting.now root.now }
{
    let Some(root) = root else {
        return None;
    };
    let facts = setting.facts();
    if root.0.serial > last_tab_serial(&facts) {
        return None;
    }
    let state = root_state(&facts, *root, setting.moment, steps);
    if !state.is_known(setting.moment) {
        return None;
    }
    Some(GivenRoot {
        root: *root,
        live: state.live_session(setting.moment),
        has_room: state.has_room(),
    })
}

/// Where a new root is needed, fewer are known than may be.
#[tactic(auto, unfolding(crate::specs::NewTab::check_roots))]
fn check_roots<L: Ledger>(
    setting: &Setting<'_>,
    given: &Option<GivenRoot>,
    steps: &mut Steps<L>,
) -> Result<Result<(), Refusal>, Memory>
    ensures { IfOk result (λ check. check ≡ check_roots setting.now given.now) }
{
    if given.is_some() {
        return Ok(Ok(()));
    }
    if has_root_room(setting.alloc, &setting.facts(), setting.moment, steps)? {
        Ok(Ok(()))
    } else {
        Ok(Err(Refusal::TooManyRoots))
    }
}

/// The root has fewer known tabs than it may have.
fn check_root_tabs(given: &Option<GivenRoot>) -> Result<(), Refusal>
    ensures { result ≡ check_root_tabs given.now }
{
    match given {
        Some(given) if !given.has_room => Err(Refusal::TooManyTabs { count: 300 }),
        _ => Ok(()),
    }
}

/// Fewer tabs are known in all roots than may be.
#[tactic(auto, unfolding(crate::specs::NewTab::check_tabs))]
fn check_tabs<L: Ledger>(setting: &Setting<'_>, steps: &mut Steps<L>) -> Result<(), Refusal>
    ensures { result ≡ check_tabs setting.now }
{
    if has_tab_room(&setting.facts(), setting.moment, steps) {
        Ok(())
    } else {
        Err(Refusal::TooManyTabs { count: 262_144 })
    }
}

/// There is room for a tab in the given root, or for a new root with a tab.
#[tactic(auto, unfolding(crate::specs::NewTab::check_room))]
pub(crate) fn check_room<L: Ledger>(
    setting: &Setting<'_>,
    given: &Option<GivenRoot>,
    steps: &mut Steps<L>,
) -> Result<Result<(), Refusal>, Memory>
    ensures { IfOk result (λ check. check ≡ check_room setting.now given.now) }
{
    if let Err(refusal) = check_roots(setting, given, steps)? {
        return Ok(Err(refusal));
    }
    if let Err(refusal) = check_root_tabs(given) {
        return Ok(Err(refusal));
    }
    Ok(check_tabs(setting, steps))
}

/// Where a tab is opened: in the given root, or in a new one.
pub(crate) fn place_at<L: Ledger>(
    setting: &Setting<'_>,
    level: u32,
    given: &Option<GivenRoot>,
    steps: &mut Steps<L>,
) -> Place
    requires serials { HasSerials setting.now.facts (2 ^ 63 - 8) }
    ensures { result ≡ place_at setting.now level given.now }
{
    let facts = setting.facts();
    let serial = last_tab_serial(&facts);
    match given {
        Some(given) => Place {
            root: given.root,
            tab: tab_key(serial + 1, setting.draws),
            level,
            live: given.live,
        },
        None => {
            let root = root_key(serial + 1, setting.draws);
            let state = root_state(&facts, root, setting.moment, steps);
            Place {
                root,
                tab: tab_key(serial + 2, setting.draws),
                level,
                live: state.live_session(setting.moment),
            }
        }
    }
}

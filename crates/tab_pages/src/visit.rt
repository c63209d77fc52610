ghost use Rattle.std.specs.Prelude.{◌≡◌, IfOk};
ghost use Rattle.facts.specs.Tabs.{tab_state};
ghost use Rattle.tab_pages.specs.Visit.{tab_in, check_known, check_live, check_tab, user_of, same_user, check_whole, check_unfinished, check_unlocked, check_account, check_visit};

use account_states::state_of;
use fact_scans::tab_state;
use facts::{Facts, RootSession};
use hall_answers::Refusal;
use lockout::Standing;
use login_base::{Moment, RootKey, Steps, TabKey, UserId};
use login_progress::KnownTab;
use std::sync::ledger::Ledger;

/// A tab of a root that isn't forgotten at the moment.
#[tactic(auto, unfolding(crate::specs::Visit::tab_in))]
fn tab_in<L: Ledger>(
    facts: &Facts<'_>,
    moment: Moment,
    root: RootKey,
    tab: TabKey,
    steps: &mut Steps<L>,
) -> Result<KnownTab, Refusal>
    ensures known { result ≡ tab_in facts.now moment root tab }
    ensures state { IfOk result (λ known. known.state ≡ tab_state known.root known.tab facts.now) }
{
    let state = tab_state(facts, root, tab, steps);
    let opening = state.opening;
    match opening {
        Some(opening) if opening.is_known(moment) => Ok(KnownTab {
            root,
            tab,
            opening,
            state,
        }),
        _ => Err(Refusal::UnknownTab),
    }
}

/// A root is given, and it has the tab, which is known.
#[tactic(auto, unfolding(crate::specs::Visit::check_known))]
fn check_known<L: Ledger>(
    facts: &Facts<'_>,
    moment: Moment,
    root: &Option<RootKey>,
    tab: TabKey,
    steps: &mut Steps<L>,
) -> Result<KnownTab, Refusal>
    ensures known { result ≡ check_known facts.now moment root.now tab }
    ensures state { IfOk result (λ known. known.state ≡ tab_state known.root known.tab facts.now) }
{
    match root {
        Some(root) => tab_in(facts, moment, *root, tab, steps),
        None => Err(Refusal::UnknownTab),
    }
}

/// The tab lives.
fn check_live(moment: Moment, known: &KnownTab) -> Result<(), Refusal>
    ensures { result ≡ check_live moment known.now }
{
    if known.opening.is_live(moment) {
        Ok(())
    } else {
        Err(Refusal::TabExpired)
    }
}

/// The tab that an ask is about.
#[tactic(auto, unfolding(crate::specs::Visit::check_tab))]
pub fn check_tab<L: Ledger>(
    facts: &Facts<'_>,
    moment: Moment,
    root: &Option<RootKey>,
    tab: TabKey,
    steps: &mut Steps<L>,
) -> Result<KnownTab, Refusal>
    ensures known { result ≡ check_tab facts.now moment root.now tab }
    ensures state { IfOk result (λ known. known.state ≡ tab_state known.root known.tab facts.now) }
{
    let known = check_known(facts, moment, root, tab, steps)?;
    check_live(moment, &known)?;
    Ok(known)
}

pub fn user_of(session: Option<RootSession>) -> Option<UserId>
    ensures value { result ≡ user_of session }
{
    match session {
        Some(own) => Some(own.user),
        None => None,
    }
}

/// A named user is the one of the live session, where both are there.
pub fn same_user(named: Option<UserId>, own: Option<UserId>) -> Result<(), Refusal>
    ensures value { result ≡ same_user named own }
{
    match (named, own) {
        (Some(tab), Some(session)) if tab.0 != session.0 => {
            Err(Refusal::OtherUser { tab, session })
        }
        _ => Ok(()),
    }
}

/// The tab isn't split.
#[tactic(auto, unfolding(crate::specs::Visit::check_whole))]
pub fn check_whole(moment: Moment, known: &KnownTab) -> Result<(), Refusal>
    ensures value { result ≡ check_whole moment known.now }
{
    same_user(known.state.named, user_of(known.state.live_session(moment)))
}

/// The tab hasn't completed.
pub fn check_unfinished(known: &KnownTab) -> Result<(), Refusal>
    ensures value { result ≡ check_unfinished known.now }
{
    if known.state.completed {
        return Err(Refusal::Finished);
    }
    Ok(())
}

/// The failures of the account don't lock it at the moment.
#[tactic(auto, unfolding(crate::specs::Visit::check_unlocked))]
fn check_unlocked(moment: Moment, standing: &Standing) -> Result<(), Refusal>
    ensures { result ≡ check_unlocked moment standing.now }
{
    if standing.locked(moment) {
        return Err(Refusal::Locked {
            until: standing.until,
        });
    }
    Ok(())
}

/// The user is unknown, or has an account that is neither locked nor closed.
#[tactic(auto, unfolding(crate::specs::Visit::check_account, crate::specs::Visit::check_enabled))]
pub fn check_account<L: Ledger>(
    facts: &Facts<'_>,
    moment: Moment,
    user: Option<UserId>,
    steps: &mut Steps<L>,
) -> Result<(), Refusal>
    ensures value { result ≡ check_account facts.now moment user }
{
    let Some(user) = user else {
        return Ok(());
    };
    let state = state_of(facts, user, steps);
    check_unlocked(moment, &state.standing)?;
    if state.is_closed() {
        return Err(Refusal::Disabled);
    }
    Ok(())
}

/// The tab may go on.
#[tactic(auto, unfolding(crate::specs::Visit::check_visit))]
pub fn check_visit<L: Ledger>(
    facts: &Facts<'_>,
    moment: Moment,
    known: &KnownTab,
    steps: &mut Steps<L>,
) -> Result<(), Refusal>
    ensures value { result ≡ check_visit facts.now moment known.now }
{
    check_whole(moment, known)?;
    check_unfinished(known)?;
    check_account(facts, moment, known.state.who(moment), steps)
}

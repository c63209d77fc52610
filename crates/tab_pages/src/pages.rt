ghost use Rattle.std.specs.Prelude.{◌≡◌, ◌-◌, ◌^◌, IfOk};
ghost use Rattle.hall_answers.specs.HasSerials.{HasSerials};
ghost use Rattle.tab_pages.specs.Pages.{page_fact, form_page, action_page, progress_answer, tab_answer, visit_answer, due_page};

use crate::completion::completion;
use crate::offering::{NO_OFFER, offer_for, shown_in};
use crate::visit::{check_tab, check_visit};
use facts::{Action, Fact, Facts, Need, What};
use hall_answers::{Answer, Setting, next_code, refused};
use login_base::{Code, Memory, RootKey, Sequence, Steps, TabKey};
use login_progress::{KnownTab, Progress, progress_of};
use std::sync::ledger::Ledger;

/// A page with this code is shown, which asks this action, if any, and has this offer.
pub fn page_fact(tab: TabKey, code: Code, action: Option<Action>, offer: [u8; 32]) -> Fact
    ensures value { result ≡ page_fact tab code action offer }
{
    Fact::Rendered {
        tab,
        code,
        action,
        offer,
    }
}

/// The page of these executions, with a new code.
fn form_page(
    facts: &Facts<'_>,
    setting: &Setting<'_>,
    tab: TabKey,
    asked: Sequence<Need>,
) -> Result<Answer, Memory>
    requires serials { HasSerials facts.now (2 ^ 63) }
    ensures { IfOk result (λ answer. answer ≡ form_page facts.now setting.now tab asked) }
{
    let code = next_code(facts, setting.draws);
    let mut added = Sequence::new(setting.alloc);
    added.push(page_fact(tab, code, None, NO_OFFER))?;
    Ok(Answer::in_tab(tab, What::Form { code, asked }, added))
}

/// The page of this action, with a new code.
fn action_page<L: Ledger>(
    facts: &Facts<'_>,
    setting: &Setting<'_>,
    known: &KnownTab,
    action: Action,
    steps: &mut Steps<L>,
) -> Result<Answer, Memory>
    requires serials { HasSerials facts.now (2 ^ 63) }
    ensures { IfOk result (λ answer. answer ≡ action_page facts.now setting.now known.now action) }
{
    let code = next_code(facts, setting.draws);
    let offer = offer_for(&known.state.page, action, setting.draws);
    let shown = shown_in(setting.alloc, facts, known, action, &offer, steps)?;
    let mut added = Sequence::new(setting.alloc);
    added.push(page_fact(known.tab, code, Some(action), offer))?;
    let what = What::Action {
        code,
        kind: action,
        shown,
    };
    Ok(Answer::in_tab(known.tab, what, added))
}

/// What a tab is answered whose login has come so far.
#[tactic(auto, unfolding(crate::specs::Pages::progress_answer))]
fn progress_answer<L: Ledger>(
    facts: &Facts<'_>,
    setting: &Setting<'_>,
    known: &KnownTab,
    progress: Progress,
    steps: &mut Steps<L>,
) -> Result<Answer, Memory>
    requires serials { HasSerials facts.now (2 ^ 63) }
    ensures { IfOk result (λ answer. answer ≡ progress_answer facts.now setting.now known.now progress) }
{
    let what = match progress {
        Progress::Ready { user, levels } => {
            return completion(facts, setting, known, user, levels.as_slice(), steps);
        }
        Progress::Asked { asked } => return form_page(facts, setting, known.tab, asked),
        Progress::Required { action, .. } => {
            return action_page(facts, setting, known, action, steps);
        }
        Progress::Denied { execution } => What::Denied { execution },
        Progress::NotConfigured { execution } => What::NotConfigured { execution },
        Progress::DeadEnd => What::DeadEnd,
        Progress::LevelMissed { level } => What::LevelMissed { level },
    };
    Ok(Answer::only(setting.alloc, Some(known.tab), what))
}

/// What a tab is answered over these facts.
#[tactic(auto, unfolding(crate::specs::Pages::tab_answer))]
pub fn tab_answer<L: Ledger>(
    facts: &Facts<'_>,
    setting: &Setting<'_>,
    known: &KnownTab,
    steps: &mut Steps<L>,
) -> Result<Answer, Memory>
    requires serials { HasSerials facts.now (2 ^ 63) }
    ensures ok { IfOk result (λ answer. answer ≡ tab_answer facts.now setting.now known.now) }
{
    let progress = progress_of(setting.alloc, facts, setting.moment, known, steps)?;
    progress_answer(facts, setting, known, progress, steps)
}

/// What a tab is answered over these facts, where it may go on.
#[tactic(auto, unfolding(crate::specs::Pages::visit_answer))]
pub fn visit_answer<L: Ledger>(
    facts: &Facts<'_>,
    setting: &Setting<'_>,
    known: &KnownTab,
    steps: &mut Steps<L>,
) -> Result<Answer, Memory>
    requires serials { HasSerials facts.now (2 ^ 63) }
    ensures ok { IfOk result (λ answer. answer ≡ visit_answer facts.now setting.now known.now) }
{
    match check_visit(facts, setting.moment, known, steps) {
        Ok(()) => tab_answer(facts, setting, known, steps),
        Err(refusal) => refused(setting.alloc, facts, Some(known.tab), refusal, steps),
    }
}

/// What a page is due.
#[tactic(auto, unfolding(crate::specs::Pages::due_page))]
pub fn due_page<L: Ledger>(
    setting: &Setting<'_>,
    root: &Option<RootKey>,
    tab: TabKey,
    steps: &mut Steps<L>,
) -> Result<Answer, Memory>
    requires serials { HasSerials setting.now.facts (2 ^ 63 - 8) }
    ensures ok { IfOk result (λ answer. answer ≡ due_page setting.now root.now tab) }
{
    let facts = setting.facts();
    match check_tab(&facts, setting.moment, root, tab, steps) {
        Ok(known) => visit_answer(&facts, setting, &known, steps),
        Err(refusal) => refused(setting.alloc, &facts, None, refusal, steps),
    }
}

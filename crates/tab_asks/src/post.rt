ghost use Rattle.std.specs.Prelude.{◌≡◌, ◌-◌, ◌^◌, ◌++◌, IfOk, OnOk};
ghost use Rattle.facts.specs.Tabs.{tab_state};
ghost use Rattle.hall_answers.specs.HasSerials.{HasSerials};
ghost use Rattle.hall_answers.specs.Passwords.{IsKeepable};
ghost use Rattle.login_progress.specs.Progress.{action_in};
ghost use Rattle.tab_asks.specs.Post.{
  known_over,
  accepted_facts,
  answer_to_accepted,
  failure_of,
  next_action,
  next_page,
  page_again,
  shown_again,
  answer_to_check,
  post_where,
  post_by,
  post_in,
  due_post,
};

use crate::check::{Check, Credential};
use crate::checking::check_form;
use crate::deeds::deed_facts;
use crate::gates::check_post;
use crate::passing::Passing;
use fact_scans::tab_state_with;
use facts::{Action, Fact, Finding, Form, Next, Post, What};
use hall_answers::{Answer, Setting, joined, next_code, refused};
use login_base::{Memory, Moment, Sequence, Steps, UserId, discard};
use login_progress::{KnownTab, Progress, progress_of};
use std::sync::ledger::Ledger;
use tab_pages::{NO_OFFER, check_tab, offer_for, page_fact, shown_in, tab_answer};

/// The tab as it is known once these facts stand behind those that it was known over.
fn known_after(known: &KnownTab, evidence: &[Fact], setting: &Setting<'_>) -> KnownTab
    requires state { known.now.state ≡ tab_state known.now.root known.now.tab setting.now.facts }
    ensures known { result ≡ known_over known.now (setting.now.facts ++ evidence.now) }
{
    KnownTab {
        state: tab_state_with(known.state, known.root, known.tab, evidence),
        ..*known
    }
}

/// What an accepted post adds: the evidence that it gives, and what its action does.
fn accepted_facts<L: Ledger>(
    setting: &Setting<'_>,
    known: &KnownTab,
    form: &Form,
    finding: &Finding,
    user: UserId,
    credential: Credential,
    steps: &mut Steps<L>,
) -> Result<Sequence<Fact>, Memory>
    requires serials { HasSerials setting.now.facts (2 ^ 63 - 8) }
    requires keepable { IsKeepable finding.now }
    ensures { IfOk result (λ added. added ≡
        accepted_facts setting.now known.now form.now finding.now user credential) }
{
    let passing = Passing {
        tab: known.tab,
        user,
        credential,
        moment: setting.moment,
    };
    let evidence = passing.evidence(setting.alloc, form)?;
    match deed_facts(setting, known, form, finding, user, credential.spent, steps) {
        Ok(deeds) => joined(evidence, deeds),
        Err(memory) => {
            discard(evidence);
            Err(memory)
        }
    }
}

/// What it adds is added, and the tab is answered over it.
#[tactic(auto, unfolding(crate::specs::Post::answer_to_accepted))]
fn answer_to_accepted<L: Ledger>(
    setting: &Setting<'_>,
    known: &KnownTab,
    form: &Form,
    finding: &Finding,
    user: UserId,
    credential: Credential,
    steps: &mut Steps<L>,
) -> Result<Answer, Memory>
    requires state { known.now.state ≡ tab_state known.now.root known.now.tab setting.now.facts }
    requires serials { HasSerials setting.now.facts (2 ^ 63 - 8) }
    requires keepable { IsKeepable finding.now }
    ensures { IfOk result (λ answer. answer ≡
        answer_to_accepted setting.now known.now form.now finding.now user credential) }
{
    let accepted = accepted_facts(setting, known, form, finding, user, credential, steps)?;
    let after = known_after(known, accepted.as_slice(), setting);
    let more = setting.facts_with(accepted.as_slice());
    let answer = tab_answer(&more, setting, &after, steps)?;
    answer.after(accepted)
}

/// Adds a failure where the user is there.
fn add_failure(
    added: &mut Sequence<Fact>,
    user: Option<UserId>,
    moment: Moment,
) -> Result<(), Memory>
    ensures { OnOk result (added.new ≡ added.old ++ failure_of user moment) }
{
    match user {
        Some(user) => added.push(Fact::Failed { user, moment }),
        None => Ok(()),
    }
}

/// The action's page again, with a new code.
fn next_action<L: Ledger>(
    setting: &Setting<'_>,
    known: &KnownTab,
    action: Action,
    steps: &mut Steps<L>,
) -> Result<Next, Memory>
    requires serials { HasSerials setting.now.facts (2 ^ 63 - 8) }
    ensures { IfOk result (λ next. next ≡ next_action setting.now known.now action) }
{
    let facts = setting.facts();
    let offer = offer_for(&known.state.page, action, setting.draws);
    let shown = shown_in(setting.alloc, &facts, known, action, &offer, steps)?;
    Ok(Next::Action {
        code: next_code(&facts, setting.draws),
        kind: action,
        shown,
    })
}

/// The same page again, with a new code.
fn next_page<L: Ledger>(
    setting: &Setting<'_>,
    known: &KnownTab,
    progress: Progress,
    steps: &mut Steps<L>,
) -> Result<Next, Memory>
    requires serials { HasSerials setting.now.facts (2 ^ 63 - 8) }
    ensures { IfOk result (λ next. next ≡ next_page setting.now known.now progress) }
{
    let asked = match progress {
        Progress::Asked { asked } => asked,
        Progress::Required { action, .. } => return next_action(setting, known, action, steps),
        _ => Sequence::new(setting.alloc),
    };
    Ok(Next::Form {
        code: next_code(&setting.facts(), setting.draws),
        asked,
    })
}

/// That the page is shown again.
fn page_again(setting: &Setting<'_>, known: &KnownTab, action: Option<Action>) -> Fact
    requires serials { HasSerials setting.now.facts (2 ^ 63 - 8) }
    ensures { result ≡ page_again setting.now known.now action }
{
    let code = next_code(&setting.facts(), setting.draws);
    let offer = match action {
        Some(action) => offer_for(&known.state.page, action, setting.draws),
        None => NO_OFFER,
    };
    page_fact(known.tab, code, action, offer)
}

/// A failure of the user, if it counts as one, and the page with its new code.
fn shown_again(
    setting: &Setting<'_>,
    known: &KnownTab,
    action: Option<Action>,
    user: Option<UserId>,
) -> Result<Sequence<Fact>, Memory>
    requires serials { HasSerials setting.now.facts (2 ^ 63 - 8) }
    ensures { IfOk result (λ added. added ≡ shown_again setting.now known.now action user) }
{
    let mut added = Sequence::new(setting.alloc);
    add_failure(&mut added, user, setting.moment)?;
    added.push(page_again(setting, known, action))?;
    Ok(added)
}

/// The same page again, with a new code, and the facts that this adds: a failure of the user, if it
/// counts as one, and that the page is shown.
fn page_and_facts<L: Ledger>(
    setting: &Setting<'_>,
    known: &KnownTab,
    progress: Progress,
    user: Option<UserId>,
    steps: &mut Steps<L>,
) -> Result<(Next, Sequence<Fact>), Memory>
    requires serials { HasSerials setting.now.facts (2 ^ 63 - 8) }
    ensures next { IfOk result (λ shown. shown.0 ≡ next_page setting.now known.now progress) }
    ensures added { IfOk result (λ shown. shown.1 ≡ shown_again setting.now known.now (action_in progress) user) }
{
    let added = shown_again(setting, known, progress.action(), user)?;
    match next_page(setting, known, progress, steps) {
        Ok(next) => Ok((next, added)),
        Err(memory) => {
            discard(added);
            Err(memory)
        }
    }
}

/// What a post is due whose check came out so.
#[tactic(auto, unfolding(crate::specs::Post::answer_to_check))]
fn answer_to_check<L: Ledger>(
    setting: &Setting<'_>,
    known: &KnownTab,
    progress: Progress,
    form: &Form,
    finding: &Finding,
    check: Check,
    steps: &mut Steps<L>,
) -> Result<Answer, Memory>
    requires state { known.now.state ≡ tab_state known.now.root known.now.tab setting.now.facts }
    requires serials { HasSerials setting.now.facts (2 ^ 63 - 8) }
    requires keepable { IsKeepable finding.now }
    ensures { IfOk result (λ answer. answer ≡
        answer_to_check setting.now known.now progress form.now finding.now check) }
{
    let tab = known.tab;
    match check {
        Check::Fits { user, credential } => {
            discard(progress);
            answer_to_accepted(setting, known, form, finding, user, credential, steps)
        }
        Check::Wrong { user } => {
            let (next, added) = page_and_facts(setting, known, progress, user, steps)?;
            Ok(Answer::in_tab(tab, What::BadCredentials { next }, added))
        }
        Check::WrongCode { user } => {
            let (next, added) = page_and_facts(setting, known, progress, user, steps)?;
            Ok(Answer::in_tab(tab, What::BadCode { next }, added))
        }
        Check::SpentCode { step } => {
            let (next, added) = page_and_facts(setting, known, progress, None, steps)?;
            Ok(Answer::in_tab(tab, What::CodeSpent { step, next }, added))
        }
    }
}

/// What a post is due in a known tab whose login has come so far.
#[tactic(auto, unfolding(crate::specs::Post::post_where))]
fn post_where<L: Ledger>(
    setting: &Setting<'_>,
    form: &Form,
    finding: &Finding,
    known: &KnownTab,
    named: Option<UserId>,
    progress: Progress,
    steps: &mut Steps<L>,
) -> Result<Answer, Memory>
    requires state { known.now.state ≡ tab_state known.now.root known.now.tab setting.now.facts }
    requires serials { HasSerials setting.now.facts (2 ^ 63 - 8) }
    requires keepable { IsKeepable finding.now }
    ensures { IfOk result (λ answer. answer ≡ post_where setting.now form.now finding.now known.now named progress) }
{
    match check_form(setting, known, &progress, named, form, finding, steps) {
        Ok(Ok(check)) => answer_to_check(setting, known, progress, form, finding, check, steps),
        Err(memory) => {
            discard(progress);
            Err(memory)
        }
        Ok(Err(refusal)) => {
            discard(progress);
            refused(
                setting.alloc,
                &setting.facts(),
                Some(known.tab),
                refusal,
                steps,
            )
        }
    }
}

/// What a post is due that names this user and that nothing has refused yet.
fn post_by<L: Ledger>(
    setting: &Setting<'_>,
    form: &Form,
    finding: &Finding,
    known: &KnownTab,
    named: Option<UserId>,
    steps: &mut Steps<L>,
) -> Result<Answer, Memory>
    requires state { known.now.state ≡ tab_state known.now.root known.now.tab setting.now.facts }
    requires serials { HasSerials setting.now.facts (2 ^ 63 - 8) }
    requires keepable { IsKeepable finding.now }
    ensures { IfOk result (λ answer. answer ≡ post_by setting.now form.now finding.now known.now named) }
{
    let facts = setting.facts();
    let progress = progress_of(setting.alloc, &facts, setting.moment, known, steps)?;
    post_where(setting, form, finding, known, named, progress, steps)
}

/// What a post is due in a known tab.
#[tactic(auto, unfolding(crate::specs::Post::post_in))]
fn post_in<L: Ledger>(
    setting: &Setting<'_>,
    post: &Post,
    finding: &Finding,
    known: &KnownTab,
    steps: &mut Steps<L>,
) -> Result<Answer, Memory>
    requires state { known.now.state ≡ tab_state known.now.root known.now.tab setting.now.facts }
    requires serials { HasSerials setting.now.facts (2 ^ 63 - 8) }
    requires keepable { IsKeepable finding.now }
    ensures { IfOk result (λ answer. answer ≡ post_in setting.now post.now finding.now known.now) }
{
    let facts = setting.facts();
    match check_post(&facts, setting.moment, known, post, steps) {
        Ok(named) => post_by(setting, &post.form, finding, known, named, steps),
        Err(refusal) => refused(setting.alloc, &facts, Some(known.tab), refusal, steps),
    }
}

/// What a post is due.
#[tactic(auto, unfolding(crate::specs::Post::due_post))]
pub fn due_post<L: Ledger>(
    setting: &Setting<'_>,
    post: &Post,
    finding: &Finding,
    steps: &mut Steps<L>,
) -> Result<Answer, Memory>
    requires serials { HasSerials setting.now.facts (2 ^ 63 - 8) }
    requires keepable { IsKeepable finding.now }
    ensures ok { IfOk result (λ answer. answer ≡ due_post setting.now post.now finding.now) }
{
    let facts = setting.facts();
    match check_tab(&facts, setting.moment, &post.root, post.tab, steps) {
        Ok(known) => post_in(setting, post, finding, &known, steps),
        Err(refusal) => refused(setting.alloc, &facts, None, refusal, steps),
    }
}

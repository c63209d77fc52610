ghost use Rattle.std.specs.Prelude.{◌≡◌, ◌-◌, ◌^◌, ◌++◌, IfOk, OnOk};
ghost use Rattle.hall_answers.specs.HasSerials.{HasSerials};
ghost use Rattle.hall_answers.specs.Passwords.{IsKeepable};
ghost use Rattle.token_asks.specs.Follow.{followed, action_done, answer_to_verify, answer_to_reset, due_verify, due_reset};

use crate::token::check_token;
use fact_scans::last_stored_serial;
use facts::{Action, Fact, Facts, Finding, TokenAction, What};
use hall_answers::{Answer, Setting, add_password, derived, refused, who_named};
use login_base::{Memory, Sequence, Steps, TokenKey, UserId};
use std::alloc::Global;
use std::sync::ledger::Ledger;

/// Adds that the token is spent, and that the user has done its action.
fn add_followed(
    added: &mut Sequence<Fact>,
    key: TokenKey,
    user: UserId,
    kind: Action,
) -> Result<(), Memory>
    ensures { OnOk result (added.new ≡ added.old ++ followed key user kind) }
{
    added.push(Fact::SpentToken { key })?;
    added.push(Fact::ActionDone { user, kind })
}

/// The reply that the user has done the action.
fn action_done<L: Ledger>(
    alloc: Global,
    facts: &Facts<'_>,
    user: UserId,
    kind: Action,
    steps: &mut Steps<L>,
) -> Result<What, Memory>
    ensures { IfOk result (λ what. what ≡ action_done facts.now user kind) }
{
    Ok(What::ActionDone {
        user: who_named(alloc, facts, user, steps)?,
        kind,
    })
}

/// The token is spent, and the user's e-mail address is verified.
fn answer_to_verify<L: Ledger>(
    setting: &Setting<'_>,
    key: TokenKey,
    user: UserId,
    steps: &mut Steps<L>,
) -> Result<Answer, Memory>
    ensures { IfOk result (λ answer. answer ≡ answer_to_verify setting.now key user) }
{
    let kind = Action::VerifyEmail;
    let what = action_done(setting.alloc, &setting.facts(), user, kind, steps)?;
    let mut added = Sequence::new(setting.alloc);
    add_followed(&mut added, key, user, kind)?;
    Ok(Answer::plain(what, added))
}

/// What it is due to follow a token that verifies an e-mail address.
#[tactic(auto, unfolding(crate::specs::Follow::due_verify))]
pub fn due_verify<L: Ledger>(
    setting: &Setting<'_>,
    key: TokenKey,
    steps: &mut Steps<L>,
) -> Result<Answer, Memory>
    ensures ok { IfOk result (λ answer. answer ≡ due_verify setting.now key) }
{
    let facts = setting.facts();
    let kind = TokenAction::VerifyEmail;
    match check_token(&facts, setting.moment, key, kind, steps) {
        Ok(user) => answer_to_verify(setting, key, user, steps),
        Err(refusal) => refused(setting.alloc, &facts, None, refusal, steps),
    }
}

/// The new password is the user's, set by no tab, and the token is spent.
fn answer_to_reset<L: Ledger>(
    setting: &Setting<'_>,
    key: TokenKey,
    finding: &Finding,
    user: UserId,
    steps: &mut Steps<L>,
) -> Result<Answer, Memory>
    requires serials { HasSerials setting.now.facts (2 ^ 63 - 8) }
    requires keepable { IsKeepable finding.now }
    ensures { IfOk result (λ answer. answer ≡ answer_to_reset setting.now key finding.now user) }
{
    let facts = setting.facts();
    let kind = Action::UpdatePassword;
    let what = action_done(setting.alloc, &facts, user, kind, steps)?;
    let mut added = Sequence::new(setting.alloc);
    let serial = last_stored_serial(&facts) + 1;
    add_password(&mut added, user, serial, &derived(finding), None)?;
    add_followed(&mut added, key, user, kind)?;
    Ok(Answer::plain(what, added))
}

/// What it is due to follow a token that sets a new password.
#[tactic(auto, unfolding(crate::specs::Follow::due_reset))]
pub fn due_reset<L: Ledger>(
    setting: &Setting<'_>,
    key: TokenKey,
    finding: &Finding,
    steps: &mut Steps<L>,
) -> Result<Answer, Memory>
    requires serials { HasSerials setting.now.facts (2 ^ 63 - 8) }
    requires keepable { IsKeepable finding.now }
    ensures ok { IfOk result (λ answer. answer ≡ due_reset setting.now key finding.now) }
{
    let facts = setting.facts();
    let kind = TokenAction::UpdatePassword;
    match check_token(&facts, setting.moment, key, kind, steps) {
        Ok(user) => answer_to_reset(setting, key, finding, user, steps),
        Err(refusal) => refused(setting.alloc, &facts, None, refusal, steps),
    }
}

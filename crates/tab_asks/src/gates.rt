//! What may refuse a post, in its order.
ghost use Rattle.std.specs.Prelude.{◌≡◌};
ghost use Rattle.tab_asks.specs.Post.{is_code, check_code, check_user, check_post, has_need, check_asked, serial_of, had_by, check_credential};

use crate::form::{does_asked, is_of, named_by};
use facts::{Facts, Finding, Form, Need, Page, Post, UserPassword};
use hall_answers::Refusal;
use login_base::{Code, Moment, Steps, UserId, same_id};
use login_progress::{KnownTab, Progress};
use std::sync::ledger::Ledger;
use tab_pages::{check_unfinished, check_whole, same_user, user_of};

fn is_code(code: &Code, shown: &Option<Code>) -> bool
    ensures { result ≡ is_code code.now shown.now }
{
    match shown {
        Some(shown) => same_id(&shown.0, &code.0),
        None => false,
    }
}

/// The code is the one that was shown last.
fn check_code(known: &KnownTab, code: &Code) -> Result<(), Refusal>
    ensures { result ≡ check_code known.now code.now }
{
    let current = known.state.code();
    if is_code(code, &current) {
        Ok(())
    } else {
        Err(Refusal::Stale { current })
    }
}

/// The user whom the form names is the one of the live session.
fn check_user(moment: Moment, known: &KnownTab, named: Option<UserId>) -> Result<(), Refusal>
    ensures { result ≡ check_user moment known.now named }
{
    same_user(named, user_of(known.state.live_session(moment)))
}

/// What may refuse a post before it is asked what its tab needs: else whom its form names. Nothing
/// is read for a code that is stale or a tab that is split.
#[tactic(auto, unfolding(crate::specs::Post::check_post))]
pub(crate) fn check_post<L: Ledger>(
    facts: &Facts<'_>,
    moment: Moment,
    known: &KnownTab,
    post: &Post,
    steps: &mut Steps<L>,
) -> Result<Option<UserId>, Refusal>
    ensures { result ≡ check_post facts.now moment known.now post.now }
{
    check_code(known, &post.code)?;
    check_whole(moment, known)?;
    let named = named_by(facts, &post.form, steps);
    check_user(moment, known, named)?;
    check_unfinished(known)?;
    Ok(named)
}

fn has_need(asked: &[Need], form: &Form) -> bool
    ensures { result ≡ has_need asked.now form.now }
{
    asked.iter().any(|need| is_of(need, form))
}

/// The form is one of an execution that is asked, or does the action that is.
pub(crate) fn check_asked(
    progress: &Progress,
    page: &Option<Page>,
    form: &Form,
) -> Result<(), Refusal>
    ensures { result ≡ check_asked progress.now page.now form.now }
{
    if has_need(progress.asked(), form) || does_asked(progress.action(), page, form) {
        Ok(())
    } else {
        Err(Refusal::NotAsked)
    }
}

fn serial_of(password: &Option<UserPassword>) -> u64
    ensures { result ≡ serial_of password.now }
{
    match password {
        Some(kept) => kept.serial,
        None => 0,
    }
}

fn had_by(finding: &Finding) -> u64
    ensures { result ≡ had_by finding.now }
{
    match finding {
        Finding::Checked { had, .. } => *had,
        _ => 0,
    }
}

/// The password was checked against the one that the target has.
#[tactic(auto, unfolding(crate::specs::Post::check_credential))]
pub(crate) fn check_credential(
    password: &Option<UserPassword>,
    finding: &Finding,
) -> Result<(), Refusal>
    ensures { result ≡ check_credential password.now finding.now }
{
    let had = had_by(finding);
    let now = serial_of(password);
    if had == now {
        Ok(())
    } else {
        Err(Refusal::CredentialMoved { had, now })
    }
}

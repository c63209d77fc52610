ghost use Rattle.std.specs.Prelude.{◌≡◌, ◌<◌, true};
ghost use Rattle.asks.specs.declared.finding.Finding.TheVariants as findings;
ghost use Rattle.asks.specs.declared.finding.PasswordUse.TheVariants.{NoPassword};
ghost use Rattle.asks.specs.Passwords.{password_use, password_text, emptied, is_solved};
ghost use Rattle.facts.specs.Realms.{has_realm};
ghost use Rattle.hall_answers.specs.Setting.{realm_now};
ghost use Rattle.login_base.specs.Steps.{IsBlank};
ghost use Rattle.login_hall.specs.Begun.{solution_of, is_work};
ghost use Rattle.login_hall.specs.Found.{salt_of, who_in, form_target, checked_user, target_password, task_for, finding_of, solved_of, has_password, HasRounds, MayHave};

use crate::begun::Begun;
use crate::task::Task;
use crate::work::Work;
use fact_scans::{account_named, tab_state};
use facts::{
    Ask, Chronicle, Facts, Finding, Form, PasswordUse, Solved, UserPassword, password_use,
    take_password,
};
use hall_answers::realm_now;
use login_base::{Draws, Moment, RootKey, Steps, TabKey, UserId};
use login_progress::password_for;
use std::alloc::Global;
use std::marker::Brand;
use std::sync::ledger::{Blank, Ledger};

/// The salt of an ask: its draws 8 and 9.
fn salt_of(draws: &Draws) -> [u8; 16]
    ensures { result ≡ salt_of draws.now }
{
    let mut salt = [0u8; 16];
    let (high, low) = salt.split_at_mut(8);
    high.copy_from_slice(&draws.0[8].to_be_bytes());
    low.copy_from_slice(&draws.0[9].to_be_bytes());
    salt
}

/// Whose login it is in a tab of a root at a moment, where the root has the tab, which is known.
fn who_in<L: Ledger>(
    facts: &Facts<'_>,
    moment: Moment,
    root: &Option<RootKey>,
    tab: TabKey,
    steps: &mut Steps<L>,
) -> Option<UserId>
    ensures { result ≡ who_in facts.now moment root.now tab }
{
    let Some(root) = root else {
        return None;
    };
    let state = tab_state(facts, *root, tab, steps);
    let opening = state.opening;
    match opening {
        Some(opening) if opening.is_known(moment) => state.who(moment),
        _ => None,
    }
}

/// The account whose password a form checks in a tab.
fn form_target<L: Ledger>(
    facts: &Facts<'_>,
    moment: Moment,
    root: &Option<RootKey>,
    tab: TabKey,
    form: &Form,
    steps: &mut Steps<L>,
) -> Option<UserId>
    ensures { result ≡ form_target facts.now moment root.now tab form.now }
{
    match form {
        Form::NamePassword { name, .. } => account_named(facts, name, steps),
        Form::Password { .. } => who_in(facts, moment, root, tab, steps),
        Form::Username { .. }
        | Form::Value { .. }
        | Form::Terms
        | Form::UpdatePassword { .. }
        | Form::ConfigureOtp { .. }
        | Form::RecoveryCodes
        | Form::VerifyEmail => None,
    }
}

/// The account whose password an ask checks.
#[tactic(auto, unfolding(crate::specs::Found::checked_user))]
fn checked_user<L: Ledger>(
    facts: &Facts<'_>,
    moment: Moment,
    ask: &Ask,
    steps: &mut Steps<L>,
) -> Option<UserId>
    ensures { result ≡ checked_user facts.now moment ask.now }
{
    match ask {
        Ask::Post(post) => form_target(facts, moment, &post.root, post.tab, &post.form, steps),
        Ask::Bad { .. }
        | Ask::NewTab(_)
        | Ask::Page { .. }
        | Ask::Verify { .. }
        | Ask::Reset { .. }
        | Ask::Logout { .. }
        | Ask::Admin { .. } => None,
    }
}

/// The password that an ask has to fit.
fn target_password<L: Ledger>(
    facts: &Facts<'_>,
    moment: Moment,
    ask: &Ask,
    steps: &mut Steps<L>,
) -> Option<UserPassword>
    ensures { result ≡ target_password facts.now moment ask.now }
{
    let target = checked_user(facts, moment, ask, steps);
    password_for(facts, target, steps)
}

/// What is to be done with the password of an ask, on a ledger of its own.
#[tactic(auto, unfolding(crate::specs::Found::task_for))]
fn task_of<L: Ledger>(
    chronicle: &Chronicle,
    moment: Moment,
    ask: &Ask,
    draws: &Draws,
    blank: Blank,
) -> Option<Task>
    requires realm { has_realm chronicle.now.list ≡ true }
    requires blank { IsBlank blank L.name L.parts }
    ensures task { result ≡ task_for (password_use ask.now) (target_password chronicle.now.list moment ask.now)
        (realm_now chronicle.now.list).iterations draws.now }
    ensures rounds { MayHave result }
{
    let mut steps = Steps::<L>::new(blank);
    let facts = Facts::of(chronicle);
    match password_use(ask) {
        PasswordUse::NoPassword => None,
        PasswordUse::Checks => Some(Task::Check {
            target: target_password(&facts, moment, ask, &mut steps),
        }),
        PasswordUse::Sets => Some(Task::Derive {
            salt: salt_of(draws),
            iterations: realm_now(chronicle).iterations(),
        }),
    }
}

/// The work of an ask that has a password.
fn work_of(alloc: Global, ask: Ask, task: Task) -> Work
    requires solved { is_solved (emptied ask) (finding_of task (password_text ask)) ≡ true }
    requires rounds { HasRounds task }
    ensures { result ≡ record { ask = emptied ask; finding = finding_of task (password_text ask) } }
{
    let mut ask = ask;
    let password = take_password(alloc, &mut ask);
    Work {
        ask,
        password,
        task,
    }
}

/// An ask without a password, for which nothing is to be found.
fn ready(ask: Ask) -> Solved
    requires { password_use ask ≡ NoPassword }
    ensures { result ≡ record { ask = ask; finding = findings.None } }
{
    match Solved::of_journal(ask, Finding::None) {
        Some(solved) => solved,
        None => unreachable!(),
    }
}

/// What the beginning of an ask over a chronicle comes to, whose last used moment this is.
pub(crate) fn begun(
    alloc: Global,
    chronicle: &Chronicle,
    moment: Moment,
    ask: Ask,
    draws: &Draws,
) -> Begun
    requires realm { has_realm chronicle.now.list ≡ true }
    ensures solved { solution_of result ≡ solved_of chronicle.now.list moment ask draws.now }
    ensures work { is_work result ≡ has_password (password_use ask) }
{
    match task_of::<Brand>(chronicle, moment, &ask, draws, Blank::new(1)) {
        Some(task) => Begun::Work(work_of(alloc, ask, task)),
        None => Begun::Ready(ready(ask)),
    }
}

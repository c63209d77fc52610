ghost use Rattle.std.specs.Prelude.{◌≡◌, Some, None, [], IsTrue, if◌then◌else◌};
ghost use Rattle.asks.specs.Passwords.{password_use, password_text, form_slot, verb_slot, text_of, is_finding_of, is_empty, is_solved, emptied, emptied_form, emptied_verb};

use crate::admin::{AdminVerb, NewUser};
use crate::ask::{Ask, Form};
use crate::finding::{Finding, PasswordUse};
use login_base::Sequence;
use realm_data::is_iterations;
use std::alloc::Global;
use std::marker::Model;
use std::mem;

/// An ask with its password gone, and what the check of that password found.
#[derive(Debug, Drop)]
pub struct Solved {
    ask: Ask,
    finding: Finding,
}

impl Model for Solved {
    ghost use Rattle.std.specs.Prelude.{IsTrue};
    ghost use Rattle.std.specs.Coded.{codes};
    ghost use Rattle.flow_tree.specs.contracts.exec.Exec as exec;
    ghost use Rattle.asks.specs.Passwords.{is_solved};
    ghost use Rattle.asks.specs.Solved.{SolvedAsk};

    ghost Value = { SolvedAsk };

    ghost coded = { Prim.hlevel (codes, exec.the_row.coded) };

    ghost view = { λ s. record { ask = s.ask; finding = s.finding } };

    ghost invariant = { λ s. IsTrue (is_solved s.ask s.finding) };
}

/// What an ask does with its password.
pub fn password_use(ask: &Ask) -> PasswordUse
    ensures value { result ≡ password_use ask.now }
{
    match ask {
        Ask::Post(post) => match &post.form {
            Form::Password { .. } | Form::NamePassword { .. } => PasswordUse::Checks,
            Form::UpdatePassword { .. } => PasswordUse::Sets,
            Form::Username { .. }
            | Form::Value { .. }
            | Form::Terms
            | Form::ConfigureOtp { .. }
            | Form::RecoveryCodes
            | Form::VerifyEmail => PasswordUse::NoPassword,
        },
        Ask::Reset { .. } => PasswordUse::Sets,
        Ask::Admin { verb, .. } => match verb {
            AdminVerb::SetPassword { .. } => PasswordUse::Sets,
            AdminVerb::UserAdd(user) if user.password.is_some() => PasswordUse::Sets,
            _ => PasswordUse::NoPassword,
        },
        _ => PasswordUse::NoPassword,
    }
}

fn take_from_form(form: &mut Form, nothing: Sequence<u8>) -> Sequence<u8>
    requires nothing { nothing ≡ [] }
    ensures form { form.new ≡ emptied_form form.old }
    ensures password { result ≡ text_of (form_slot form.old) }
{
    match form {
        Form::Password { password, .. } => mem::replace(password, nothing),
        Form::NamePassword { password, .. } => mem::replace(password, nothing),
        Form::UpdatePassword { password } => mem::replace(password, nothing),
        Form::Username { .. }
        | Form::Value { .. }
        | Form::Terms
        | Form::ConfigureOtp { .. }
        | Form::RecoveryCodes
        | Form::VerifyEmail => nothing,
    }
}

fn take_from_verb(verb: &mut AdminVerb, nothing: Sequence<u8>) -> Sequence<u8>
    requires nothing { nothing ≡ [] }
    ensures verb { verb.new ≡ emptied_verb verb.old }
    ensures password { result ≡ text_of (verb_slot verb.old) }
{
    match verb {
        AdminVerb::SetPassword { password, .. } => mem::replace(password, nothing),
        AdminVerb::UserAdd(
            NewUser {
                password: Some(password),
                ..
            },
        ) => mem::replace(password, nothing),
        _ => nothing,
    }
}

/// Takes the password out of an ask, empty where the ask has none. It takes no memory.
pub fn take_password(alloc: Global, ask: &mut Ask) -> Sequence<u8>
    ensures ask { ask.new ≡ emptied ask.old }
    ensures password { result ≡ password_text ask.old }
{
    let nothing = Sequence::new(alloc);
    match ask {
        Ask::Post(post) => take_from_form(&mut post.form, nothing),
        Ask::Reset { password, .. } => mem::replace(password, nothing),
        Ask::Admin { verb, .. } => take_from_verb(verb, nothing),
        _ => nothing,
    }
}

fn has_empty_password(ask: &Ask) -> bool
    ensures { result ≡ is_empty (password_text ask.now) }
{
    match ask {
        Ask::Post(post) => match &post.form {
            Form::Password { password, .. }
            | Form::NamePassword { password, .. }
            | Form::UpdatePassword { password } => password.is_empty(),
            _ => true,
        },
        Ask::Reset { password, .. } => password.is_empty(),
        Ask::Admin { verb, .. } => match verb {
            AdminVerb::SetPassword { password, .. } => password.is_empty(),
            AdminVerb::UserAdd(
                NewUser {
                    password: Some(password),
                    ..
                },
            ) => password.is_empty(),
            _ => true,
        },
        _ => true,
    }
}

fn is_finding_of(usage: PasswordUse, finding: &Finding) -> bool
    ensures { result ≡ is_finding_of usage finding.now }
{
    match (usage, finding) {
        (PasswordUse::NoPassword, Finding::None) => true,
        (PasswordUse::Checks, Finding::Checked { .. }) => true,
        (PasswordUse::Sets, Finding::Derived { iterations, .. }) => is_iterations(*iterations),
        _ => false,
    }
}

impl Solved {
    /// An ask and a finding that belong together: the ask's password is empty, and the finding is
    /// `None` for an ask without a password, `Checked` for one that checks it, and `Derived` with
    /// 1 to 2,000,000 iterations for one that sets it. Else none.
    pub fn of_journal(ask: Ask, finding: Finding) -> Option<Solved>
        ensures value { result ≡
            (if is_solved ask finding then Some (record { ask = ask; finding = finding }) else None) }
    {
        if has_empty_password(&ask) && is_finding_of(password_use(&ask), &finding) {
            Some(Solved { ask, finding })
        } else {
            None
        }
    }

    /// The ask, its password empty.
    pub fn ask(&self) -> &Ask
        ensures ask { result.now ≡ self.now.ask }
    {
        &self.ask
    }

    /// What the check of its password found.
    pub fn finding(&self) -> &Finding
        ensures finding { result.now ≡ self.now.finding }
        ensures fits { IsTrue (is_finding_of (password_use self.now.ask) result.now) }
    {
        &self.finding
    }
}

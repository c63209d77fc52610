//! What the forms of a post are: whom each names, whose password it gives, and which execution it
//! answers or which action it does.
ghost use Rattle.std.specs.Prelude.{◌≡◌};
ghost use Rattle.tab_asks.specs.Forms.{named_by, target_of, concerned, is_need, is_of};
ghost use Rattle.tab_asks.specs.Deeds.{does, does_asked};

use fact_scans::account_named;
use facts::{Action, Facts, Form, Need, Page};
use flow_tree::Kind;
use login_base::{Name, Steps, UserId};
use std::sync::ledger::Ledger;
use tab_pages::is_shown;

/// The user whom a form names.
pub fn named_by<L: Ledger>(facts: &Facts<'_>, form: &Form, steps: &mut Steps<L>) -> Option<UserId>
    ensures value { result ≡ named_by facts.now form.now }
{
    match form {
        Form::Username { name, .. } | Form::NamePassword { name, .. } => {
            account_named(facts, name, steps)
        }
        Form::Password { .. }
        | Form::Value { .. }
        | Form::Terms
        | Form::UpdatePassword { .. }
        | Form::ConfigureOtp { .. }
        | Form::RecoveryCodes
        | Form::VerifyEmail => None,
    }
}

/// The user whose password a form is checked against, where `who` is the one whose login it is, and
/// `named` the one whom it names.
pub fn target_of(named: Option<UserId>, who: Option<UserId>, form: &Form) -> Option<UserId>
    ensures value { result ≡ target_of named who form.now }
{
    match form {
        Form::NamePassword { .. } => named,
        Form::Password { .. } => who,
        Form::Username { .. }
        | Form::Value { .. }
        | Form::Terms
        | Form::UpdatePassword { .. }
        | Form::ConfigureOtp { .. }
        | Form::RecoveryCodes
        | Form::VerifyEmail => None,
    }
}

/// The user whom a post concerns: the one whom it names, else `who`, whose login it is.
pub(crate) fn concerned(named: Option<UserId>, who: Option<UserId>) -> Option<UserId>
    ensures { result ≡ concerned named who }
{
    named.or(who)
}

pub(crate) fn is_need(need: &Need, execution: &Name, kind: Kind) -> bool
    ensures { result ≡ is_need need.now execution.now kind }
{
    need.id == *execution && need.kind == kind
}

/// Whether a form is one of this execution.
pub(crate) fn is_of(need: &Need, form: &Form) -> bool
    ensures { result ≡ is_of need.now form.now }
{
    match form {
        Form::Username { execution, .. } => is_need(need, execution, Kind::Username),
        Form::Password { execution, .. } => is_need(need, execution, Kind::Password),
        Form::NamePassword { execution, .. } => is_need(need, execution, Kind::Form),
        Form::Value { execution, .. } => {
            is_need(need, execution, Kind::Otp) || is_need(need, execution, Kind::Recovery)
        }
        Form::Terms
        | Form::UpdatePassword { .. }
        | Form::ConfigureOtp { .. }
        | Form::RecoveryCodes
        | Form::VerifyEmail => false,
    }
}

/// Whether a form does this action. None verifies an e-mail address: a token alone does.
fn does(form: &Form, action: Action) -> bool
    ensures { result ≡ does form.now action }
{
    match action {
        Action::Terms => matches!(form, Form::Terms),
        Action::VerifyEmail => false,
        Action::UpdatePassword => matches!(form, Form::UpdatePassword { .. }),
        Action::ConfigureOtp => matches!(form, Form::ConfigureOtp { .. }),
        Action::RecoveryCodes => matches!(form, Form::RecoveryCodes),
    }
}

/// Whether a form does the action that is asked, and that the page shown last asks.
pub(crate) fn does_asked(action: Option<Action>, page: &Option<Page>, form: &Form) -> bool
    ensures { result ≡ does_asked action page.now form.now }
{
    match action {
        Some(action) => does(form, action) && is_shown(page, action),
        None => false,
    }
}

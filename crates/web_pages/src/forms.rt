ghost use Rattle.std.specs.Prelude.{◌≡◌, ◌++◌, OnOk};
ghost use Rattle.reply_words.specs.Words.{action_words};
ghost use Rattle.web_pages.specs.Forms.{hidden, form_front, form_back, form_line, need_form, need_forms, action_forms, next_forms, what_forms, forms_of};

use crate::field::{Field, action_fields, add_fields, kind_fields};
use crate::text::{add, add_three};
use asks::{Need, Next, What};
use login_base::{Code, Memory, TabKey, id_text};
use realm_data::Action;

/// An input that is filled in already.
#[tactic(auto, unfolding(crate::specs::Forms::hidden))]
fn add_hidden(out: &mut Vec<u8>, name: &[u8], value: &[u8]) -> Result<(), Memory>
    ensures { OnOk result (out.new.items ≡ out.old.items ++ hidden name.now value.now) }
{
    add(out, b"<input type=\"hidden\" name=\"")?;
    add_three(out, name, b"\" value=\"", value)?;
    add(out, b"\">")?;
    Ok(())
}

/// The tab and the code to which a form is posted.
#[tactic(auto, unfolding(crate::specs::Forms::form_front))]
fn add_front(out: &mut Vec<u8>, tab: &TabKey, code: &Code) -> Result<(), Memory>
    ensures { OnOk result (out.new.items ≡ out.old.items ++ form_front tab.now code.now) }
{
    add(out, b"<form method=\"post\" action=\"/post\">")?;
    add_hidden(out, b"tab", &id_text(&tab.0))?;
    add_hidden(out, b"code", &id_text(&code.0))?;
    Ok(())
}

/// What is posted.
#[tactic(auto, unfolding(crate::specs::Forms::form_back))]
fn add_back(out: &mut Vec<u8>, kind: &[u8], name: &[u8], fields: &[Field]) -> Result<(), Memory>
    ensures { OnOk result (out.new.items ≡ out.old.items ++ form_back kind.now name.now fields.now) }
{
    add_hidden(out, kind, name)?;
    add_fields(out, fields)?;
    add_three(out, b"<button>", name, b"</button></form>\n")
}

#[tactic(auto, unfolding(crate::specs::Forms::form_line))]
fn add_form(
    out: &mut Vec<u8>,
    tab: &TabKey,
    code: &Code,
    kind: &[u8],
    name: &[u8],
    fields: &[Field],
) -> Result<(), Memory>
    ensures { OnOk result (out.new.items ≡ out.old.items ++ form_line tab.now code.now kind.now name.now fields.now) }
{
    add_front(out, tab, code)?;
    add_back(out, kind, name, fields)
}

/// A form for each execution that is asked.
fn add_need_forms(
    out: &mut Vec<u8>,
    tab: &TabKey,
    code: &Code,
    asked: &[Need],
) -> Result<(), Memory>
    ensures { OnOk result (out.new.items ≡ out.old.items ++ need_forms tab.now code.now asked.now) }
{
    for need in asked {
        add_form(
            out,
            tab,
            code,
            b"execution",
            need.id.as_bytes(),
            kind_fields(need.kind),
        )?;
    }
    Ok(())
}

#[tactic(auto, unfolding(reply_words::specs::Words::action_words))]
fn action_words(action: Action) -> &'static [u8]
    ensures { result.now ≡ action_words action }
{
    match action {
        Action::Terms => b"terms",
        Action::VerifyEmail => b"verify_email",
        Action::UpdatePassword => b"update_password",
        Action::ConfigureOtp => b"configure_otp",
        Action::RecoveryCodes => b"recovery_codes",
    }
}

/// The form of an action; a token alone verifies mail.
fn add_action_form(
    out: &mut Vec<u8>,
    tab: &TabKey,
    code: &Code,
    action: Action,
) -> Result<(), Memory>
    ensures { OnOk result (out.new.items ≡ out.old.items ++ action_forms tab.now code.now action) }
{
    match action {
        Action::VerifyEmail => Ok(()),
        _ => add_form(
            out,
            tab,
            code,
            b"action",
            action_words(action),
            action_fields(action),
        ),
    }
}

fn add_next_forms(out: &mut Vec<u8>, tab: &TabKey, next: &Next) -> Result<(), Memory>
    ensures { OnOk result (out.new.items ≡ out.old.items ++ next_forms tab.now next.now) }
{
    match next {
        Next::Form { code, asked } => add_need_forms(out, tab, code, asked.as_slice()),
        Next::Action { code, kind, .. } => add_action_form(out, tab, code, *kind),
    }
}

/// The forms of a page of the tab.
#[tactic(auto, unfolding(crate::specs::Forms::what_forms))]
fn add_what_forms(out: &mut Vec<u8>, tab: &TabKey, what: &What) -> Result<(), Memory>
    ensures { OnOk result (out.new.items ≡ out.old.items ++ what_forms tab.now what.now) }
{
    match what {
        What::Form { code, asked } => add_need_forms(out, tab, code, asked.as_slice()),
        What::Action { code, kind, .. } => add_action_form(out, tab, code, *kind),
        What::BadCredentials { next } | What::BadCode { next } | What::CodeSpent { next, .. } => {
            add_next_forms(out, tab, next)
        }
        _ => Ok(()),
    }
}

/// The forms of a page; a reply without a tab has none.
pub fn add_forms(out: &mut Vec<u8>, tab: &Option<TabKey>, what: &What) -> Result<(), Memory>
    ensures forms { OnOk result (out.new.items ≡ out.old.items ++ forms_of tab.now what.now) }
{
    match tab {
        Some(tab) => add_what_forms(out, tab, what),
        None => Ok(()),
    }
}

ghost use Rattle.std.specs.Prelude.{◌≡◌, ◌++◌, [], OnOk, IfOk, codes, decimal, length};
ghost use Rattle.reply_words.specs.Words.{words};
ghost use Rattle.web_pages.specs.Forms.{forms_of};
ghost use Rattle.web_pages.specs.Heads.{last_lines};
ghost use Rattle.web_pages.specs.Pages.{document, root_line, fault_line, page, fault_page};
ghost use Rattle.web_pages.specs.Statuses.{fault_status};

use crate::fault::WebFault;
use crate::forms::add_forms;
use crate::head::{add_allow, add_cookie, add_first_lines, add_last_lines};
use crate::status::{fault_status, method_text, what_status};
use crate::text::{add, add_three};
use asks::Reply;
use http::StatusCode;
use login_base::{Memory, RootKey, TabKey};
use reply_words::words_of;
use std::alloc::Global;

/// A document of one paragraph, whose forms follow.
fn add_paragraph(out: &mut Vec<u8>, text: &[u8]) -> Result<(), Memory>
    ensures { OnOk result (out.new.items ≡
        out.old.items ++ (codes "<!doctype html>\n<title>Login</title>\n<p>" ++ text.now ++ codes "</p>\n")) }
{
    add_three(
        out,
        b"<!doctype html>\n<title>Login</title>\n<p>",
        text,
        b"</p>\n",
    )
}

#[tactic(auto, unfolding(crate::specs::Pages::document))]
fn document_of(alloc: Global, reply: &Reply) -> Result<Vec<u8>, Memory>
    ensures { IfOk result (λ out. out.items ≡ document (words reply.now) (forms_of reply.now.tab reply.now.what)) }
{
    let text = words_of(alloc, reply)?;
    let mut out = Vec::new(alloc);
    add_paragraph(&mut out, text.as_slice())?;
    add_forms(&mut out, &reply.tab, &reply.what)?;
    Ok(out)
}

#[tactic(auto, unfolding(crate::specs::Pages::document))]
fn fault_document(alloc: Global, status: StatusCode) -> Result<Vec<u8>, Memory>
    ensures { IfOk result (λ out. out.items ≡ document (codes "fault " ++ decimal status) []) }
{
    let number = status.as_u16().to_string(alloc)?;
    let mut text = Vec::new(alloc);
    add(&mut text, b"fault ")?;
    add(&mut text, number.as_bytes())?;
    let mut out = Vec::new(alloc);
    add_paragraph(&mut out, text.as_slice())?;
    Ok(out)
}

/// The line by which a browser keeps the root of an open.
fn add_root(out: &mut Vec<u8>, opened: &Option<RootKey>, tab: &Option<TabKey>) -> Result<(), Memory>
    ensures { OnOk result (out.new.items ≡ out.old.items ++ root_line opened.now tab.now) }
{
    match (opened, tab) {
        (Some(root), Some(_)) => add_cookie(out, root),
        _ => Ok(()),
    }
}

/// The line of a fault alone.
fn add_fault_line(out: &mut Vec<u8>, fault: WebFault) -> Result<(), Memory>
    ensures { OnOk result (out.new.items ≡ out.old.items ++ fault_line fault) }
{
    match fault {
        WebFault::MethodNotAllowed { allowed } => add_allow(out, method_text(allowed)),
        _ => Ok(()),
    }
}

/// What stands behind the lines of a response alone.
fn add_rest(alloc: Global, out: &mut Vec<u8>, body: &[u8]) -> Result<(), Memory>
    ensures { OnOk result (out.new.items ≡ out.old.items ++ (last_lines (length body.now) ++ body.now)) }
{
    add_last_lines(alloc, out, body.len())?;
    add(out, body)
}

/// The response with a reply's page: a page of HTML with the reply's words and a form for each thing
/// that it asks. A page of an open lets the browser keep the root (RFC 6265, section 4.1).
pub fn page_of(alloc: Global, reply: &Reply) -> Result<Vec<u8>, Memory>
    ensures bytes { IfOk result (λ bytes. bytes.items ≡ page reply.now) }
{
    let body = document_of(alloc, reply)?;
    let mut out = Vec::new(alloc);
    add_first_lines(alloc, &mut out, what_status(&reply.what))?;
    add_root(&mut out, &reply.opened, &reply.tab)?;
    add_rest(alloc, &mut out, body.as_slice())?;
    Ok(out)
}

/// The response to a request that is none, with the status of its fault. That of a wrong method names
/// the right one (RFC 9110, section 15.5.6).
pub fn fault_page(alloc: Global, fault: WebFault) -> Result<Vec<u8>, Memory>
    ensures bytes { IfOk result (λ bytes. bytes.items ≡ fault_page fault) }
{
    let status = fault_status(fault);
    let body = fault_document(alloc, status)?;
    let mut out = Vec::new(alloc);
    add_first_lines(alloc, &mut out, status)?;
    add_fault_line(&mut out, fault)?;
    add_rest(alloc, &mut out, body.as_slice())?;
    Ok(out)
}

use crate::{RouteMethod, WebFault, fault_page, page_of};
use asks::{Need, Next, Reply, What};
use flow_tree::Kind;
use login_base::{Code, Id, Memory, Name, RootKey, Sequence, TabKey, discard, read_name};
use realm_data::Action;
use std::alloc::{AllocGlobal, Global};
use std::process::Abort;
use std::test::Fail;

/// An id whose text is 0000000000000007.000000000000000a000000000000000b.
const ID: Id = Id {
    serial: 7,
    high: 10,
    low: 11,
};

/// The text of `ID`.
const SPELLED: &str = "0000000000000007.000000000000000a000000000000000b";

/// A response, with `STATUS`, `OWN` for the lines of this one alone, `LENGTH` and `BODY` in it.
const RESPONSE: &str =
    "HTTP/1.1 STATUS\r\nContent-Type: text/html; charset=utf-8\r\nCache-Control: no-store\r\nOWNContent-Length: LENGTH\r\nConnection: close\r\n\r\n<!doctype html>\n<title>Login</title>\n<p>BODY";

/// What a form begins with, where `@` stands for the text of `ID`.
const FORM: &str =
    "<form method=\"post\" action=\"/post\"><input type=\"hidden\" name=\"tab\" value=\"@\"><input type=\"hidden\" name=\"code\" value=\"@\">";

/// A fault, the status of its page, the line that it alone has, and its words with the length of the
/// body.
const FAULTS: [(WebFault, &str, &str, &str, &str); 8] = [
    (
        WebFault::BadRequest,
        "400 Bad Request",
        "",
        "54",
        "fault 400",
    ),
    (WebFault::NotFound, "404 Not Found", "", "54", "fault 404"),
    (
        WebFault::MethodNotAllowed {
            allowed: RouteMethod::Get,
        },
        "405 Method Not Allowed",
        "Allow: GET\r\n",
        "54",
        "fault 405",
    ),
    (
        WebFault::MethodNotAllowed {
            allowed: RouteMethod::Post,
        },
        "405 Method Not Allowed",
        "Allow: POST\r\n",
        "54",
        "fault 405",
    ),
    (
        WebFault::LengthRequired,
        "411 Length Required",
        "",
        "54",
        "fault 411",
    ),
    (
        WebFault::BodyTooLarge,
        "413 Payload Too Large",
        "",
        "54",
        "fault 413",
    ),
    (
        WebFault::UnsupportedMediaType,
        "415 Unsupported Media Type",
        "",
        "54",
        "fault 415",
    ),
    (
        WebFault::HeadTooLarge,
        "431 Request Header Fields Too Large",
        "",
        "54",
        "fault 431",
    ),
];

/// The response of these parts, in which each `@` stands for the text of `ID`.
fn response(
    alloc: Global,
    status: &str,
    own: &str,
    length: &str,
    body: &str,
) -> Result<String, Memory> {
    let text = RESPONSE.replace(alloc, "STATUS", status)?;
    let text = text.replace(alloc, "OWN", own)?;
    let text = text.replace(alloc, "LENGTH", length)?;
    let text = text.replace(alloc, "BODY", body)?;
    let text = text.replace(alloc, "FORM", FORM)?;
    Ok(text.replace(alloc, "@", SPELLED)?)
}

#[test]
fn a_fault_has_its_page(rt: HostRuntime) -> Result<(), Fail> {
    for (fault, status, own, length, words) in FAULTS {
        let body = format!(in rt.alloc(); "{words}</p>\n")?;
        let want = response(rt.alloc(), status, own, length, &body)?;
        let page = fault_page(rt.alloc(), fault)?;
        assert_eq!(rt; page.as_slice(), want.as_bytes(), "{status}");
    }
    Ok(())
}

fn name_of(alloc: Global, name: &str) -> Result<Name, Memory> {
    match read_name(alloc, name.as_bytes())? {
        Some(name) => Ok(name),
        None => Err(Memory),
    }
}

/// The page of a reply of a tab that opened a root or not.
fn is_page(
    rt: &(impl Abort + AllocGlobal),
    opened: Option<RootKey>,
    what: What,
    want: &str,
) -> Result<(), Fail> {
    let tab = Some(TabKey(ID));
    let reply = Reply { tab, opened, what };
    let page = page_of(rt.alloc(), &reply);
    discard(reply);
    assert_eq!(rt; page?.as_slice(), want.as_bytes());
    Ok(())
}

#[test]
fn a_reply_has_its_status_and_its_words(rt: HostRuntime) -> Result<(), Fail> {
    let alloc = rt.alloc();
    let want = response(alloc, "200 OK", "", "55", "logged-out</p>\n")?;
    is_page(&rt, None, What::LoggedOut, &want)?;
    let at = name_of(alloc, "tab")?;
    let words = "refused 1 BadForm at=tab</p>\n";
    let want = response(alloc, "400 Bad Request", "", "69", words)?;
    is_page(&rt, None, What::BadForm { at }, &want)?;
    let words = "refused 7 UnknownTab</p>\n";
    let want = response(alloc, "404 Not Found", "", "65", words)?;
    is_page(&rt, None, What::UnknownTab, &want)?;
    let words = "fault dice</p>\n";
    let want = response(alloc, "503 Service Unavailable", "", "55", words)?;
    is_page(&rt, None, What::DiceFault, &want)?;
    let words = "root=@ tab=@ refused 22 DeadEnd</p>\n";
    let own = "Set-Cookie: root=@; Path=/; HttpOnly; SameSite=Lax\r\n";
    let want = response(alloc, "403 Forbidden", own, "172", words)?;
    is_page(&rt, Some(RootKey(ID)), What::DeadEnd, &want)
}

/// The executions of a form and of a recovery code.
fn asked(alloc: Global) -> Result<Sequence<Need>, Memory> {
    let mut needs = Sequence::new(alloc);
    let id = name_of(alloc, "a")?;
    let kind = Kind::Form;
    needs.push(Need {
        id,
        kind,
        number: 0,
    })?;
    let id = name_of(alloc, "b")?;
    let kind = Kind::Recovery;
    needs.push(Need {
        id,
        kind,
        number: 3,
    })?;
    Ok(needs)
}

#[test]
fn a_page_has_a_form_for_each_execution(rt: HostRuntime) -> Result<(), Fail> {
    let code = Code(ID);
    let asked = asked(rt.alloc())?;
    let body =
        "refused 16 BadCredentials form code=@ asked=a:form,b:recovery#3</p>\nFORM<input type=\"hidden\" name=\"execution\" value=\"a\"><input name=\"name\"><input name=\"password\" type=\"password\"><button>a</button></form>\nFORM<input type=\"hidden\" name=\"execution\" value=\"b\"><input name=\"value\"><button>b</button></form>\n";
    let want = response(rt.alloc(), "403 Forbidden", "", "814", body)?;
    let next = Next::Form { code, asked };
    is_page(&rt, None, What::BadCredentials { next }, &want)
}

#[test]
fn a_page_of_an_action_has_its_form(rt: HostRuntime) -> Result<(), Fail> {
    let (code, kind) = (Code(ID), Action::UpdatePassword);
    let shown = Sequence::new(rt.alloc());
    let body =
        "action code=@ kind=update_password</p>\nFORM<input type=\"hidden\" name=\"action\" value=\"update_password\"><input name=\"password\" type=\"password\"><button>update_password</button></form>\n";
    let want = response(rt.alloc(), "200 OK", "", "481", body)?;
    is_page(&rt, None, What::Action { code, kind, shown }, &want)?;
    let kind = Action::VerifyEmail;
    let shown = Sequence::new(rt.alloc());
    let body = "action code=@ kind=verify_email</p>\n";
    let want = response(rt.alloc(), "200 OK", "", "124", body)?;
    is_page(&rt, None, What::Action { code, kind, shown }, &want)
}

use crate::{Read, ask_of};
use asks::{Access, Ask};
use login_base::{Id, Memory, RootKey, discard};
use std::alloc::{AllocGlobal, Global};
use std::process::Abort;
use std::test::Fail;
use web_pages::{RouteMethod, WebFault};

/// An id's text.
const ID: &str = "0000000000000007.000000000000000a000000000000000b";

/// What a form of a length brings.
const TYPE: &str = "Content-Type: application/x-www-form-urlencoded\n";

/// The front of a request, in which `TYPE` stands for the field of a form's type, and what it is read
/// as: `more`, `ask`, `bad` for an ask that is malformed, or the status of a fault.
const REQUESTS: [(&str, &str); 46] = [
    ("", "more"),
    ("\r", "more"),
    (
        "\r\n\nGET /login?client=app HTTP/1.1\r\nHost: x\r\n",
        "more",
    ),
    (
        "\r\n\nGET /login?client=app HTTP/1.1\r\nHost: x\r\n\r",
        "more",
    ),
    (
        "\r\n\nGET /login?client=app HTTP/1.1\r\nHost: x\r\n\r\n",
        "ask",
    ),
    ("GET /login?client=app HTTP/1.0\n\nmore", "ask"),
    ("GET /login HTTP/1.1\n\n", "bad"),
    ("GET /login?client=app HTTP/2.0\n\n", "400"),
    ("GET /login?client=app HTTP/1.1\nHost x\n\n", "400"),
    ("GET /login?client=app HTTP/1.1\nA: b\n c: d\n\n", "400"),
    ("GET /login?client=app\n\n", "400"),
    ("\r\r\nGET /login?client=app HTTP/1.1\n\n", "400"),
    ("GET /nope HTTP/1.1\nHost: x\n\n", "404"),
    ("PUT /nope HTTP/1.1\n\n", "404"),
    ("GET /login/ HTTP/1.1\n\n", "404"),
    ("GET http://x/login HTTP/1.1\n\n", "404"),
    ("PUT /post HTTP/1.1\n\n", "405 POST"),
    ("POST /login HTTP/1.1\n\n", "405 GET"),
    ("get /tab HTTP/1.1\n\n", "405 GET"),
    ("GET /admin?verb=sweep HTTP/1.1\n\n", "405 POST"),
    ("POST /logout HTTP/1.1\nTYPE\n", "411"),
    (
        "POST /logout HTTP/1.1\nTYPEContent-Length: 0\ntransfer-encoding: chunked\n\n",
        "411",
    ),
    (
        "GET /login?client=app HTTP/1.1\nTransfer-Encoding: chunked\n\n",
        "ask",
    ),
    ("POST /logout HTTP/1.1\nTYPEContent-Length: +1\n\n", "400"),
    ("POST /logout HTTP/1.1\nTYPEContent-Length: 007\n\n", "400"),
    ("POST /logout HTTP/1.1\nTYPEContent-Length:\n\n", "400"),
    (
        "POST /logout HTTP/1.1\nTYPEContent-Length: 1\nContent-Length: 2\n\n",
        "400",
    ),
    (
        "POST /logout HTTP/1.1\nTYPEContent-Length: 1\nContent-Length: 1\n\na",
        "ask",
    ),
    (
        "POST /logout HTTP/1.1\nTYPEContent-Length: 18446744073709551616\n\n",
        "400",
    ),
    ("POST /logout HTTP/1.1\nTYPEContent-Length: 8193\n\n", "413"),
    (
        "GET /login?client=app HTTP/1.1\nContent-Length: 8193\n\n",
        "413",
    ),
    (
        "GET /login?client=app HTTP/1.1\nContent-Length: 2\n\na",
        "more",
    ),
    (
        "GET /login?client=app HTTP/1.1\nContent-Length: 2\n\nab",
        "ask",
    ),
    (
        "POST /logout HTTP/1.1\nContent-Length: 8193\nContent-Encoding: gzip\n\n",
        "413",
    ),
    (
        "GET /login?client=app HTTP/1.1\nContent-Encoding: gzip\n\n",
        "415",
    ),
    ("POST /logout HTTP/1.1\nContent-Length: 0\n\n", "415"),
    (
        "POST /logout HTTP/1.1\nContent-Length: 0\nContent-Type: text/plain\nTYPE\n",
        "415",
    ),
    (
        "POST /logout HTTP/1.1\nContent-Length: 0\nTYPEContent-Type: text/plain\n\n",
        "ask",
    ),
    (
        "POST /logout HTTP/1.1\nContent-Length: 0\nContent-Type: Application/X-WWW-Form-Urlencoded ; charset=utf-8\n\n",
        "ask",
    ),
    (
        "POST /logout HTTP/1.1\nContent-Length: 0\nContent-Type: application/x-www-form-urlencoded\t;\n\n",
        "415",
    ),
    ("POST /logout HTTP/1.1\nTYPEContent-Length: 3\n\nab", "more"),
    (
        "POST /logout HTTP/1.1\nTYPEContent-Length: 3\n\nabcGET",
        "ask",
    ),
    (
        "POST /post HTTP/1.1\nTYPEContent-Length: 11\n\ntab=a&tab=a",
        "bad",
    ),
    (
        "POST /admin HTTP/1.1\nTYPEContent-Length: 10\n\nverb=sweep",
        "ask",
    ),
    (
        "POST /admin HTTP/1.1\nTYPEContent-Length: 14\n\nverb=realm-put",
        "bad",
    ),
    (
        "POST /admin?verb=sweep HTTP/1.1\nTYPEContent-Length: 0\n\n",
        "bad",
    ),
];

/// The fields of a request, and whether its root is that of `ID`, in place of `@`.
const COOKIES: [(&str, bool); 8] = [
    ("Cookie: root=@\n", true),
    ("cookie: a=b ; root=@ ;c\n", true),
    ("Cookie: root\nCookie: root=@\n", true),
    ("Cookie: a=b\nCookie: root=@; root=x\n", true),
    ("Cookie: root=x; root=@\n", false),
    ("Cookie: Root=@\n", false),
    ("Cookie: root =@\n", false),
    ("Root: root=@\n", false),
];

fn read_as(read: &Read) -> &'static str {
    match read {
        Read::More => "more",
        Read::Ask(Ask::Bad { .. }) => "bad",
        Read::Ask(_) => "ask",
        Read::Fault(WebFault::BadRequest) => "400",
        Read::Fault(WebFault::NotFound) => "404",
        Read::Fault(
            WebFault::MethodNotAllowed {
                allowed: RouteMethod::Get,
            },
        ) => "405 GET",
        Read::Fault(
            WebFault::MethodNotAllowed {
                allowed: RouteMethod::Post,
            },
        ) => "405 POST",
        Read::Fault(WebFault::LengthRequired) => "411",
        Read::Fault(WebFault::BodyTooLarge) => "413",
        Read::Fault(WebFault::UnsupportedMediaType) => "415",
        Read::Fault(WebFault::HeadTooLarge) => "431",
    }
}

/// The text is read so.
fn is_read(rt: &(impl Abort + AllocGlobal), text: &str, want: &str) -> Result<(), Fail> {
    let read = ask_of(rt.alloc(), text.as_bytes())?;
    assert_eq!(rt; read_as(&read), want, "{text}");
    discard(read);
    Ok(())
}

#[test]
fn a_request_has_its_first_fault(rt: HostRuntime) -> Result<(), Fail> {
    for (text, want) in REQUESTS {
        let text = text.replace(rt.alloc(), "TYPE", TYPE)?;
        is_read(&rt, &text, want)?;
    }
    Ok(())
}

#[test]
fn a_head_has_its_limits(rt: HostRuntime) -> Result<(), Fail> {
    let line = "a".repeat(rt.alloc(), 16_383)?;
    is_read(&rt, &line, "more")?;
    let line = "a".repeat(rt.alloc(), 16_384)?;
    is_read(&rt, &line, "431")?;
    let fields = "A: b\n".repeat(rt.alloc(), 64)?;
    let head = format!(in rt.alloc(); "GET /login?client=app HTTP/1.1\n{fields}\n")?;
    is_read(&rt, &head, "ask")?;
    let head = format!(in rt.alloc(); "GET /login?client=app HTTP/1.1\n{fields}A\n\n")?;
    is_read(&rt, &head, "431")
}

/// The root of a page that is asked.
fn page_root(read: &Read) -> Option<RootKey> {
    match read {
        Read::Ask(Ask::Page { root, .. }) => *root,
        _ => None,
    }
}

#[test]
fn the_root_comes_from_the_first_cookie_named_so(rt: HostRuntime) -> Result<(), Fail> {
    let root = RootKey(Id {
        serial: 7,
        high: 10,
        low: 11,
    });
    for (fields, known) in COOKIES {
        let fields = fields.replace(rt.alloc(), "@", ID)?;
        let head = format!(in rt.alloc(); "GET /tab?tab={ID}&root={ID} HTTP/1.1\n{fields}\n")?;
        let read = ask_of(rt.alloc(), head.as_bytes())?;
        let want = if known { Some(root) } else { None };
        assert_eq!(rt; page_root(&read), want, "{fields}");
        discard(read);
    }
    Ok(())
}

/// The first byte of the digest of an administrator's key.
fn key_byte(read: &Read) -> Option<u8> {
    match read {
        Read::Ask(
            Ask::Admin {
                access: Access::Key(digest),
                ..
            },
        ) => Some(digest[0]),
        _ => None,
    }
}

#[test]
fn an_administrator_comes_with_a_key(rt: HostRuntime) -> Result<(), Fail> {
    let head = format!(in rt.alloc();
        "POST /admin HTTP/1.1\n{TYPE}Content-Length: 18\n\nverb=sweep&key=abc"
    )?;
    let read = ask_of(rt.alloc(), head.as_bytes())?;
    assert_eq!(rt; key_byte(&read), Some(0xba));
    discard(read);
    Ok(())
}

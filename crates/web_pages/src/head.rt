ghost use Rattle.std.specs.Prelude.{◌≡◌, ◌++◌, OnOk, IfOk};
ghost use Rattle.web_pages.specs.Heads.{status_line, length_line, cookie_line, allow_line, first_lines, last_lines};

use crate::text::{add, add_three};
use http::StatusCode;
use login_base::{Memory, RootKey, id_text};
use std::alloc::Global;

fn add_status(alloc: Global, out: &mut Vec<u8>, status: StatusCode) -> Result<(), Memory>
    ensures { OnOk result (out.new.items ≡ out.old.items ++ status_line status) }
{
    let text = status.to_string(alloc)?;
    add_three(out, b"HTTP/1.1 ", text.as_bytes(), b"\r\n")
}

/// The lines of a head before those of this response alone.
#[tactic(auto, unfolding(crate::specs::Heads::first_lines))]
pub fn add_first_lines(alloc: Global, out: &mut Vec<u8>, status: StatusCode) -> Result<(), Memory>
    ensures lines { OnOk result (out.new.items ≡ out.old.items ++ first_lines status) }
{
    add_status(alloc, out, status)?;
    add(out, b"Content-Type: text/html; charset=utf-8\r\n")?;
    add(out, b"Cache-Control: no-store\r\n")?;
    Ok(())
}

/// The line by which a browser keeps a root.
pub fn add_cookie(out: &mut Vec<u8>, root: &RootKey) -> Result<(), Memory>
    ensures line { OnOk result (out.new.items ≡ out.old.items ++ cookie_line root.now) }
{
    add_three(
        out,
        b"Set-Cookie: root=",
        &id_text(&root.0),
        b"; Path=/; HttpOnly; SameSite=Lax\r\n",
    )
}

/// The line that names the method of the route.
pub fn add_allow(out: &mut Vec<u8>, method: &[u8]) -> Result<(), Memory>
    ensures line { OnOk result (out.new.items ≡ out.old.items ++ allow_line method.now) }
{
    add_three(out, b"Allow: ", method, b"\r\n")
}

fn add_length(alloc: Global, out: &mut Vec<u8>, length: usize) -> Result<(), Memory>
    ensures { OnOk result (out.new.items ≡ out.old.items ++ length_line length) }
{
    let text = length.to_string(alloc)?;
    add_three(out, b"Content-Length: ", text.as_bytes(), b"\r\n")
}

/// The lines of a head behind those of this response alone, for a body of so many bytes.
#[tactic(auto, unfolding(crate::specs::Heads::last_lines))]
pub fn add_last_lines(alloc: Global, out: &mut Vec<u8>, length: usize) -> Result<(), Memory>
    ensures lines { OnOk result (out.new.items ≡ out.old.items ++ last_lines length) }
{
    add_length(alloc, out, length)?;
    add(out, b"Connection: close\r\n")?;
    add(out, b"\r\n")
}

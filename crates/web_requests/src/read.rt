ghost use Rattle.std.specs.Prelude.{◌≡◌, IfOk, nat_lt};
ghost use Rattle.web_requests.specs.Front.{field_lines};
ghost use Rattle.web_requests.specs.Reading.{wanted_by, read_wanted, read_head, ReadsLines, ReadsAs};

use crate::front::{HeadPlace, field_lines, head_place};
use crate::head::{FIELD_LIMIT, Request, read_head};
use crate::request::{asked, wanted_by};
use asks::Ask;
use login_base::Memory;
use std::alloc::Global;
use web_pages::WebFault;

/// The most bytes of a head, with the empty lines before it.
const HEAD_LIMIT: usize = 16_384;

/// What the bytes of a request are read as, so far as they came.
#[derive(Debug, Drop)]
pub enum Read {
    /// A whole request asks this.
    Ask(Ask),
    /// It is none of the service's.
    Fault(WebFault),
    /// The head isn't there yet, or its body.
    More,
}

fn read_request(alloc: Global, request: &Request, rest: &[u8]) -> Result<Read, Memory>
    ensures { IfOk result (λ read. read ≡ read_wanted request.now rest.now (wanted_by request.now)) }
{
    match wanted_by(request) {
        Ok(wanted) => {
            if rest.len() < wanted.length {
                return Ok(Read::More);
            }
            let ask = asked(alloc, wanted.route, request, &rest[..wanted.length])?;
            Ok(Read::Ask(ask))
        }
        Err(fault) => Ok(Read::Fault(fault)),
    }
}

/// What a head and the bytes behind it are read as.
fn read_lines(alloc: Global, head: &[u8], rest: &[u8]) -> Result<Read, Memory>
    ensures { IfOk result (ReadsLines (nat_lt 64 (field_lines head.now)) head.now rest.now) }
{
    if field_lines(head) > FIELD_LIMIT {
        return Ok(Read::Fault(WebFault::HeadTooLarge));
    }
    match read_head(alloc, head)? {
        Some(request) => read_request(alloc, &request, rest),
        None => Ok(Read::Fault(WebFault::BadRequest)),
    }
}

/// What the bytes of a request are read as (RFC 9112), so far as they came: an ask, its first fault,
/// or more where its head or its body isn't there yet. What stands behind the body isn't read.
pub fn ask_of(alloc: Global, bytes: &[u8]) -> Result<Read, Memory>
    ensures read { IfOk result (ReadsAs bytes.now) }
{
    match head_place(bytes, HEAD_LIMIT) {
        HeadPlace::Unfinished => Ok(Read::More),
        HeadPlace::TooLarge => Ok(Read::Fault(WebFault::HeadTooLarge)),
        HeadPlace::Whole { start, end } => read_lines(alloc, &bytes[start..end], &bytes[end..]),
    }
}

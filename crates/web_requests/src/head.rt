ghost use Rattle.std.specs.Prelude.{◌≡◌, ◌≤◌, IfOk, length, map, take, All, slice_range};
ghost use Rattle.httparse.specs.Spans.{IsWithin, IsHeaderWithin, IsRequestWithin, span_bytes};
ghost use Rattle.web_requests.specs.Front.{field_lines};
ghost use Rattle.web_requests.specs.Heads.{IsHead, IsHeadWithin, field_at, request_at};

use httparse::Status;
use httparse::spans::{EMPTY_HEADER_SPAN, HeaderSpan, RequestSpans, Span, parse_request};
use login_base::{Memory, Sequence};
use std::alloc::Global;

/// The most fields of a head.
pub const FIELD_LIMIT: usize = 64;

/// A field of a head (RFC 9110, section 5), its value without the white space around it.
#[derive(Debug, Drop)]
pub struct HeaderField {
    pub name: Sequence<u8>,
    pub value: Sequence<u8>,
}

/// The head of a request.
#[derive(Debug, Drop)]
pub struct Request {
    pub method: Sequence<u8>,
    pub target: Sequence<u8>,
    pub fields: Sequence<HeaderField>,
}

/// A copy of the bytes of a span.
fn copy_of(alloc: Global, bytes: &[u8], span: Span) -> Result<Sequence<u8>, Memory>
    requires within { IsWithin (length bytes.now) span }
    ensures copy { IfOk result (λ copy. copy ≡ span_bytes bytes.now span) }
{
    Ok(Sequence::from_vec(Vec::from_slice(alloc, span.of(bytes))?))
}

fn field_at(alloc: Global, bytes: &[u8], span: &HeaderSpan) -> Result<HeaderField, Memory>
    requires within { IsHeaderWithin (length bytes.now) span.now }
    ensures { IfOk result (λ field. field ≡ field_at bytes.now span.now) }
{
    let name = copy_of(alloc, bytes, span.name)?;
    let value = copy_of(alloc, bytes, span.value)?;
    Ok(HeaderField { name, value })
}

fn fields_at(
    alloc: Global,
    bytes: &[u8],
    spans: &[HeaderSpan],
) -> Result<Sequence<HeaderField>, Memory>
    requires within { All (IsHeaderWithin (length bytes.now)) spans.now }
    ensures { IfOk result (λ fields. fields ≡ map (field_at bytes.now) spans.now) }
{
    let mut fields = Sequence::new(alloc);
    for span in spans {
        let field = field_at(alloc, bytes, span)?;
        fields.push(field)?;
    }
    Ok(fields)
}

/// The request whose parts are at these places.
fn request_at(
    alloc: Global,
    bytes: &[u8],
    spans: &[HeaderSpan],
    places: RequestSpans,
) -> Result<Request, Memory>
    requires within { IsRequestWithin bytes.now spans.now places }
    ensures { IfOk result (λ request. request ≡ request_at bytes.now spans.now places) }
{
    let method = copy_of(alloc, bytes, places.method)?;
    let target = copy_of(alloc, bytes, places.path)?;
    let fields = fields_at(alloc, bytes, &spans[..places.headers])?;
    Ok(Request {
        method,
        target,
        fields,
    })
}

/// The request whose head the bytes begin with, or none where that has more than 64 fields or isn't
/// there.
fn head_within(alloc: Global, bytes: &[u8]) -> Result<Option<Request>, Memory>
    ensures head { IfOk result (IsHeadWithin bytes.now 64) }
{
    let mut spans = [EMPTY_HEADER_SPAN; FIELD_LIMIT];
    match parse_request(bytes, &mut spans) {
        Ok(Status::Complete(places)) => {
            let request = request_at(alloc, bytes, &spans, places)?;
            Ok(Some(request))
        }
        _ => Ok(None),
    }
}

/// The request whose head the bytes begin with, or none where they begin with none (RFC 9112,
/// sections 3 and 5, as `httparse` reads it).
pub fn read_head(alloc: Global, bytes: &[u8]) -> Result<Option<Request>, Memory>
    requires lines { field_lines bytes.now ≤ 64 }
    ensures head { IfOk result (IsHead bytes.now) }
{
    head_within(alloc, bytes)
}

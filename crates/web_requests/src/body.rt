ghost use Rattle.std.specs.Prelude.{◌≡◌, ◌≤◌, IfOk};
ghost use Rattle.std.specs.Option.{option_copied};
ghost use Rattle.web_requests.specs.Bodies.{check_framing, small_length, length_given, is_form_type, check_type, check_coding, body_length};

use crate::fields::{all_say, first_value, has_field};
use crate::head::HeaderField;
use crate::texts::{same_word, split_once, trim_spaces};
use decimal_text::number;
use web_pages::{RouteMethod, WebFault};

/// The most bytes of a body.
const BODY_LIMIT: u64 = 8_192;

/// What is posted has a Content-Length, and no other framing.
fn check_framing(method: RouteMethod, fields: &[HeaderField]) -> Result<(), WebFault>
    ensures { result ≡ check_framing method fields.now }
{
    match method {
        RouteMethod::Post => {
            if has_field(fields, b"transfer-encoding") || !has_field(fields, b"content-length") {
                Err(WebFault::LengthRequired)
            } else {
                Ok(())
            }
        }
        RouteMethod::Get => Ok(()),
    }
}

/// A length that a body can have.
fn small_length(length: Option<u64>) -> Result<usize, WebFault>
    ensures { result ≡ small_length length }
{
    match length {
        Some(n) if n > BODY_LIMIT => Err(WebFault::BodyTooLarge),
        Some(n) => Ok(n as usize),
        None => Err(WebFault::BadRequest),
    }
}

/// The number that each Content-Length says; without one there is no body.
fn length_given(text: Option<&[u8]>, fields: &[HeaderField]) -> Result<usize, WebFault>
    ensures { result ≡ length_given (option_copied text.entry) fields.now }
{
    match text {
        Some(text) => {
            if all_say(fields, b"content-length", text) {
                small_length(number(text, u64::MAX))
            } else {
                Err(WebFault::BadRequest)
            }
        }
        None => Ok(0),
    }
}

/// Whether a Content-Type is that of a form's pairs, whatever its parameters.
fn is_form_type(value: Option<&[u8]>) -> bool
    ensures { result ≡ is_form_type (option_copied value.entry) }
{
    match value {
        Some(value) => {
            let (kind, _) = split_once(value, b';');
            same_word(trim_spaces(kind), b"application/x-www-form-urlencoded")
        }
        None => false,
    }
}

/// What is posted is a form.
fn check_type(method: RouteMethod, fields: &[HeaderField]) -> Result<(), WebFault>
    ensures { result ≡ check_type method fields.now }
{
    match method {
        RouteMethod::Post => {
            if is_form_type(first_value(fields, b"content-type")) {
                Ok(())
            } else {
                Err(WebFault::UnsupportedMediaType)
            }
        }
        RouteMethod::Get => Ok(()),
    }
}

/// No body is coded.
fn check_coding(fields: &[HeaderField]) -> Result<(), WebFault>
    ensures { result ≡ check_coding fields.now }
{
    if has_field(fields, b"content-encoding") {
        Err(WebFault::UnsupportedMediaType)
    } else {
        Ok(())
    }
}

/// The length of a body in bytes, or the first fault of the fields that describe it.
#[tactic(auto, unfolding(crate::specs::Bodies::body_length))]
pub fn body_length(method: RouteMethod, fields: &[HeaderField]) -> Result<usize, WebFault>
    ensures length { result ≡ body_length method fields.now }
{
    check_framing(method, fields)?;
    let length = length_given(first_value(fields, b"content-length"), fields)?;
    check_coding(fields)?;
    check_type(method, fields)?;
    Ok(length)
}

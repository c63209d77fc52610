//! What a request over HTTP/1.0 or 1.1 asks (RFC 9110, RFC 9112): the bytes that came are read as an
//! ask, as a fault of the request, or as not enough yet. It knows neither connections, nor what an ask
//! is answered.
//!
//! - `front`: where the head is; `head`: its parts; `texts`, `fields`: the texts of its fields
//! - `route`: the routes; `body`: how long a body is, and of which kind; `cookie`: the root of a browser
//! - `request`: what a request asks; `read`: all of it
#![tactic(auto)]

mod body;
mod cookie;
mod fields;
mod front;
mod head;
mod read;
mod request;
mod route;
#[cfg(test)]
mod tests;
mod texts;

pub use read::{Read, ask_of};

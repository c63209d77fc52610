//! The pages of the service as bytes of HTTP/1.1 responses (RFC 9112): the page of a reply, with the
//! forms of what it asks, and the page of a request that is none.
//!
//! - `fault`: why a request is none; `status`: the status of a page
//! - `text`: texts that grow at their end
//! - `head`: the lines before a body; `field`, `forms`: the forms of a page
//! - `page`: all of it
#![tactic(auto)]

mod fault;
mod field;
mod forms;
mod head;
mod page;
mod status;
#[cfg(test)]
mod tests;
mod text;

pub use fault::{RouteMethod, WebFault};
pub use page::{fault_page, page_of};
pub use status::method_text;

use crate::ask_words::put_ask;
use crate::notation::bytes_of;
use crate::text::put;
use login_base::{Memory, discard};
use std::alloc::{AllocError, Global};
use web_pages::{WebFault, fault_page};
use web_requests::{Read, ask_of};

/// Adds what a line of a page's head says of its fault, if anything.
fn put_line(out: &mut Vec<u8>, line: &[u8]) -> Result<(), Memory> {
    let line = line.strip_suffix(b"\r").unwrap_or(line);
    if let Some(status) = line.strip_prefix(b"HTTP/1.1 ") {
        put(out, b"", status)?;
    }
    if let Some(method) = line.strip_prefix(b"Allow: ") {
        put(out, b", Allow: ", method)?;
    }
    Ok(())
}

fn put_fault(alloc: Global, out: &mut Vec<u8>, fault: WebFault) -> Result<(), Memory> {
    let page = fault_page(alloc, fault)?;
    for line in page.as_slice().split(|byte| *byte == b'\n') {
        put_line(out, line)?;
    }
    Ok(())
}

fn put_read(alloc: Global, out: &mut Vec<u8>, read: &Read) -> Result<(), Memory> {
    match read {
        Read::Ask(ask) => put_ask(alloc, out, ask),
        Read::Fault(fault) => put_fault(alloc, out, *fault),
        Read::More => put(out, b"more", b""),
    }
}

/// What the request of a line is read as.
fn read_words(alloc: Global, line: &[u8]) -> Result<Vec<u8>, Memory> {
    let request = bytes_of(alloc, line)?;
    let read = ask_of(alloc, request.as_slice())?;
    let mut out = Vec::new(alloc);
    let put = put_read(alloc, &mut out, &read);
    discard(read);
    put?;
    Ok(out)
}

/// The answer to a line.
pub fn answer(alloc: Global, line: &[u8]) -> Result<String, AllocError> {
    if line.starts_with(b"#") {
        return String::from_utf8_lossy(alloc, line);
    }
    match read_words(alloc, line) {
        Ok(words) => String::from_utf8_lossy(alloc, words.as_slice()),
        Err(_) => Err(AllocError),
    }
}

//! Reads requests as the service does: not a part of what is shipped.
//!
//! Each line of standard input is a request in short. Each line of standard output is what it is
//! read as: the words of the ask, `more` where it isn't whole, or the status of the page of its
//! fault, with the method that is allowed. A line that begins with `#` is written as it is.
//!
//! In a request `\r`, `\n` and `\t` stand for CR, LF and a tab, `\x` and two hexadecimal digits for
//! a byte, and `\\` for a backslash. `\(`, a number, a space, a text and `\)` stand for the text as
//! often as the number says.
//!
//! The words of an ask are its verb and its pairs as they were read, in the order in which they are
//! looked for. A key of an administrator is written as its SHA-256 digest.
#![tactic(auto)]

mod admin_words;
mod ask_words;
mod notation;
mod report;
mod text;

use std::io;

fn main(rt: HostRuntime) -> io::Result<()> {
    let alloc = rt.alloc();
    for line in rt.lines(alloc) {
        let line = line?;
        let text = report::answer(alloc, line.as_str().as_bytes())?;
        println!(rt; "{text}")?;
    }
    Ok(())
}

//! Computes outside vectors for comparison: not a part of what is shipped.
//!
//! Each line of standard input has five columns between tabs: kind, hash, key, message and number,
//! with texts in hexadecimal. Each line of standard output is the result: a code in 8 decimal
//! digits, a base32 text as it is, all else in hexadecimal, and `-` for a line that asks for
//! nothing that is built.
//!
//! | kind | hash | key | message | number |
//! |---|---|---|---|---|
//! | hmac | sha1, sha256, sha512 | the key | the message | |
//! | pbkdf2 | sha1, sha256 | the password | the salt | iterations |
//! | hotp | sha1 | the key | | the counter |
//! | totp | sha1 | the key | | the time in seconds |
//! | base32 | | | the bytes | |
//! | unbase32 | | | the base32 text | |
#![tactic(auto)]

mod answer;
mod case;

use case::Case;
use std::alloc::{AllocError, Global};
use std::io;

/// The result that a line asks for.
fn result_of(alloc: Global, line: &str) -> Result<String, AllocError> {
    match Case::of(alloc, line) {
        Some(case) => answer::answer(alloc, &case),
        None => String::from_str(alloc, "-"),
    }
}

fn main(rt: HostRuntime) -> io::Result<()> {
    for line in rt.lines(rt.alloc()) {
        let result = result_of(rt.alloc(), line?.as_str())?;
        println!(rt; "{result}")?;
    }
    Ok(())
}

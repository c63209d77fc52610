//! Judges trees that are written in short, a line each: the tree, a space, and the ids that are
//! true with commas between them. It answers each with the rule that is broken and the id that
//! breaks it, or with whether the tree holds, what it needs, and for each live level whether it
//! is reached.
//!
//! An execution is its requirement (`R`, `A`, `C` or `D`) and its id. Before it stands `(` for a
//! subflow, which ends at its `)`, `?` for a condition, `!` for a condition of level 1, or `#`
//! for one of level 2.
#![tactic(auto)]

mod reader;
mod report;

use std::io;

fn main(rt: HostRuntime) -> io::Result<()> {
    let alloc = rt.alloc();
    for line in rt.lines(alloc) {
        let line = line?;
        let text = report::answer(alloc, line.as_str().as_bytes())?;
        println!(rt; "{text}")?;
    }
    Ok(())
}

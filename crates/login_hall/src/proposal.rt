use facts::{Entry, Reply};
use std::marker::Model;

/// The entry that an ask is due, for which a hall made room.
#[derive(Drop)]
pub struct Proposal {
    pub(crate) entry: Entry,
    pub(crate) reply: Reply,
}

impl Model for Proposal {
    ghost use Rattle.std.specs.Prelude.{◌≡◌};
    ghost use Rattle.std.specs.Coded.{codes};
    ghost use Rattle.flow_tree.specs.contracts.exec.Exec as exec;
    ghost use Rattle.facts.specs.declared.entry.Entry.{Entry as EntryValue};

    ghost Value = { EntryValue };

    ghost coded = { Prim.hlevel (codes, exec.the_row.coded) };

    ghost view = { λ p. p.entry };

    ghost invariant = { λ p. p.reply ≡ p.entry.reply };
}

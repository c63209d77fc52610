ghost use Rattle.std.specs.Prelude.{◌≡◌, ◌++◌};

use crate::chronicle::Chronicle;
use crate::fact::Fact;
use std::marker::Model;

/// The facts of a chronicle, and more behind them. Contracts see the one list.
#[derive(Drop)]
pub struct Facts<'a> {
    chronicle: &'a Chronicle,
    more: &'a [Fact],
}

impl<'a> Model for Facts<'a> {
    ghost use Rattle.std.specs.Prelude.{List, ◌++◌};
    ghost use Rattle.std.specs.Coded.{codes};
    ghost use Rattle.flow_tree.specs.contracts.exec.Exec as exec;
    ghost use Rattle.facts.specs.declared.fact.Fact.{Fact};

    ghost Value = { List Fact };

    ghost coded = { Prim.hlevel (codes, exec.the_row.coded) };

    ghost view = { λ f. f.chronicle.now.list ++ f.more.now };
}

impl<'a> Facts<'a> {
    /// The facts of a chronicle alone.
    pub fn of(chronicle: &'a Chronicle) -> Facts<'a>
        ensures facts { result ≡ chronicle.now.list }
    {
        Facts {
            chronicle,
            more: &[],
        }
    }

    /// The facts of a chronicle, and these behind them.
    pub fn with(chronicle: &'a Chronicle, more: &'a [Fact]) -> Facts<'a>
        ensures facts { result ≡ chronicle.now.list ++ more.now }
    {
        Facts { chronicle, more }
    }

    /// The chronicle, and the facts behind it.
    pub fn parts(&self) -> (&'a Chronicle, &'a [Fact])
        ensures facts { self.now ≡ result.0.now.list ++ result.1.now }
    {
        (self.chronicle, self.more)
    }
}

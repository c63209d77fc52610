ghost use Rattle.std.specs.Prelude.{◌≡◌, ◌+◌};
ghost use Rattle.login_base.specs.Steps.{IsBlank};

use std::marker::Model;
use std::sync::ledger::{Blank, Book, Ledger, Share};

/// How many steps were taken, over any ledger. It has no bytes at run time, and `tick` alone
/// changes it.
#[derive(Drop)]
pub struct Steps<L: Ledger> {
    book: Book<L>,
    share: Share<L>,
}

impl<L: Ledger> Model for Steps<L> {
    ghost use Rattle.std.specs.Prelude.{ℕ, ◌<◌};

    ghost Value = { ℕ };

    ghost view = { λ s. s.book.total };

    ghost invariant = { λ s. 0 < s.share.parts };
}

impl<L: Ledger> Steps<L> {
    /// No steps yet, on a fresh ledger.
    pub fn new(blank: Blank) -> Steps<L>
        requires blank { IsBlank blank L.name L.parts }
        ensures value { result ≡ 0 }
    {
        let (book, share) = blank.open::<L>();
        Steps { book, share }
    }

    /// Counts one step.
    pub fn tick(&mut self)
        ensures value { self.new ≡ self.old + 1 }
    {
        self.book.add(&mut self.share, 1);
    }
}

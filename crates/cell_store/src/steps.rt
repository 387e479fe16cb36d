// The counter of rows that were read.

ghost use Rattle.std.specs.Prelude.{◌≡◌, ◌<◌, ◌+◌, ℕ};

use std::marker::Model;
use std::sync::ledger::{Blank, Book, Ledger, Share};

/// How many rows were read. It takes no bytes when the program runs.
#[derive(Drop)]
pub struct Steps<L: Ledger> {
    book: Book<L>,
    share: Share<L>,
}

impl<L: Ledger> Model for Steps<L> {
    ghost Value = { ℕ };

    ghost view = { λ s. s.book.total };

    ghost invariant = { λ s. 0 < s.share.parts };
}

impl<L: Ledger> Steps<L> {
    /// A counter at 0, over a blank of the ledger.
    pub fn new(blank: Blank) -> Steps<L>
        requires { (blank.name ≡ L.name) × (blank.parts ≡ L.parts) × (0 < L.parts) }
        ensures { result ≡ 0 }
    {
        let (book, share) = blank.open::<L>();
        Steps { book, share }
    }

    /// Counts one row. Who shows rows of another kind, as those of a snapshot, calls it once for each.
    pub fn tick(&mut self)
        ensures { self.new ≡ self.old + 1 }
    {
        self.add(1);
    }

    /// Counts so many rows.
    pub(crate) fn add(&mut self, rows: u64)
        ensures { self.new ≡ self.old + rows }
    {
        self.book.add(&mut self.share, rows);
    }
}

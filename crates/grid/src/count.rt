//! A count of steps.

ghost use Rattle.std.specs.Prelude.{◌≡◌, ℕ, ◌+◌, ◌<◌};

use std::marker::Model;
use std::sync::ledger::{Blank, Book, Ledger, Share};

/// A number of steps. It takes no bytes at run time, and only `tick` changes it.
#[derive(Drop)]
pub struct Count<L: Ledger> {
    book: Book<L>,
    share: Share<L>,
}

impl<L: Ledger> Model for Count<L> {
    ghost Value = { ℕ };

    ghost view = { λ c. c.book.total };

    ghost invariant = { λ c. 0 < c.share.parts };
}

impl<L: Ledger> Count<L> {
    /// No step yet.
    pub fn new(blank: Blank) -> Count<L>
        requires name { blank.name ≡ L.name }
        requires parts { blank.parts ≡ L.parts }
        requires some { 0 < L.parts }
        ensures { result ≡ 0 }
    {
        let (book, share) = blank.open::<L>();
        Count { book, share }
    }

    /// One step more.
    pub fn tick(&mut self)
        ensures { self.new ≡ self.old + 1 }
    {
        self.book.add(&mut self.share, 1);
    }
}

//! A share in a desk's count of posted pieces.

ghost use Rattle.std.specs.Prelude.{ℕ};

use std::marker::{Brand, Model};
use std::sync::ledger;
use std::sync::ledger::Ledger;

/// A ledger that knows the limit of the book that it counts for, so that a book behind a lock keeps its desk's limit.
pub trait Limited: Ledger {
    ghost limit: { ℕ };
}

impl Limited for Brand {
    ghost limit = { 0 };
}

/// One part of a ledger, with the number of pieces that were posted with it, which contracts alone see.
#[derive(Drop)]
pub struct Share<L: Limited> {
    pub(crate) own: ledger::Share<L>,
}

impl<L: Limited> Model for Share<L> {
    ghost use Rattle.std.specs.Prelude.{◌≡◌, ℕ};

    ghost Value = { ℕ };

    ghost view = { λ s. s.own.amount };

    ghost invariant = { λ s. s.own.parts ≡ 1 };
}

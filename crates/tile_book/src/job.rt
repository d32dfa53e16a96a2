//! What makes the piece of a number.

ghost use Rattle.std.specs.Prelude.{◌≡◌, ◌<◌, ℕ, IfOk};

use crate::book::Numbered;
use geom::NoMemory;
use std::alloc::Allocator;

/// Makes the piece of each number below its count. Contracts alone know the count.
pub trait Job<A: Allocator + Copy> {
    type Piece: Numbered + Drop;

    ghost count: { Self → ℕ };

    /// The piece of this number. It answers `NoMemory` only where a growth was refused.
    fn piece(&self, alloc: A, number: u32) -> Result<Self::Piece, NoMemory>
        requires { number < count self.now }
        ensures { IfOk result (λ p. Self.Piece.number_of p ≡ number) };
}

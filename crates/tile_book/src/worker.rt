//! One worker: draws numbers, makes their pieces and posts them.

ghost use Rattle.std.specs.Prelude.{◌≡◌, ◌+◌, ◌≤◌, true, IfNone, IfSome, length};
ghost use mathlib.Core.List.{IsPrefix};
ghost use Rattle.geom.specs.declared.fault.Fault.TheVariants.{Memory};
ghost use Rattle.tile_book.specs.Growth.{one_if_fault};

use crate::book::Numbered;
use crate::desk::Desk;
use crate::draw::{Draw, Hand};
use crate::gate::{Gate, Phase};
use crate::job::Job;
use crate::share::{Limited, Share};
use geom::Fault;
use std::alloc::Allocator;
use std::sync::Wait;

/// What a worker hands back.
#[derive(Drop)]
pub struct WorkOutcome<L: Limited> {
    /// The hand that it drew with.
    pub hand: Hand,
    /// The share that it posted with.
    pub share: Share<L>,
    /// How many pieces came back from the book.
    pub returned: u32,
    /// Out of memory, where it stopped before the hand was spent.
    pub fault: Option<Fault>,
}

/// Draws numbers, makes their pieces and posts them, until no number is left or memory runs out. A piece that comes back
/// is dropped and counted.
pub fn work<A: Allocator + Copy, J: Job<A>, L: Limited, G: Gate, R: Wait>(
    rt: &R,
    alloc: A,
    job: &J,
    phase: Phase,
    draw: &Draw<A>,
    mut hand: Hand,
    desk: &Desk<J::Piece, L, A>,
    mut share: Share<L>,
    gate: &G,
) -> WorkOutcome<L>
    requires own { hand.draw ≡ draw.now }
    requires count { draw.now.limit ≤ J.count job.now }
    ensures own { result.hand.draw ≡ draw.now }
    ensures continues { IsPrefix hand.drawn result.hand.drawn }
    ensures grown { result.share + result.returned + one_if_fault result.fault + length hand.drawn ≡ share + length result.hand.drawn }
    ensures spent { IfNone result.fault (result.hand.spent ≡ true) }
    ensures memory { IfSome result.fault (λ f. f ≡ Memory) }
{
    let mut returned = 0;
    while let Some(number) = draw.draw(&mut hand) {
        gate.drawn(phase, number);
        let Ok(piece) = job.piece(alloc, number) else {
            return WorkOutcome {
                hand,
                share,
                returned,
                fault: Some(Fault::Memory),
            };
        };
        let (own, back) = posted(rt, desk, share, piece);
        share = own;
        returned += back;
        gate.posted(phase, number);
    }
    WorkOutcome {
        hand,
        share,
        returned,
        fault: None,
    }
}

// Posts a piece. The share grows by one, or one piece comes back and is dropped.
fn posted<P: Numbered + Drop, L: Limited, A: Allocator + Copy, R: Wait>(
    rt: &R,
    desk: &Desk<P, L, A>,
    share: Share<L>,
    piece: P,
) -> (Share<L>, u32)
    ensures { (result.0 + result.1 ≡ share + 1) × (result.1 ≤ 1) }
{
    match desk.post(rt, share, piece) {
        (share, Ok(())) => (share, 0),
        (share, Err(_)) => (share, 1),
    }
}

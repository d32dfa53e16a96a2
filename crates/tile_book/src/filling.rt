//! A whole pass over the numbers below a limit: draw, desk, workers, and the book at the end.

ghost use Rattle.std.specs.Prelude.{◌≡◌, ◌+◌, ◌<◌, ◌≤◌, ℕ, [], true, All, IfOk, IsSome, None, flat_map, length, slice_index_or, sum, vec_len};
ghost use Rattle.tile_book.specs.Books.{IsReplay, KeepsHeld, StandInOrder, pieces};
ghost use Rattle.tile_book.specs.Growth.{HasGrown};

use crate::book::{Book, Numbered};
use crate::crew::{Seat, seats};
use crate::desk::{Desk, close};
use crate::draw::{Draw, Hand, MOST_HANDS, MOST_NUMBERS, finish};
use crate::gate::{Gate, Phase};
use crate::job::Job;
use crate::share::{Limited, Share};
use crate::worker::{WorkOutcome, work};
use geom::NoMemory;
use std::alloc::Allocator;
use std::sync::Wait;
use std::sync::ledger::Blank;
use std::thread::{self, Threads};

/// What a whole pass gives.
#[derive(Drop)]
pub struct FilledBook<P: Numbered, L: Limited, A: Allocator> {
    /// The pieces that were posted.
    pub book: Book<P, L, A>,
    /// How many pieces came back from the book. Where none did, it is full.
    pub returned: u64,
}

/// Makes and posts the piece of each number below a limit of at most `MOST_NUMBERS`, by 1 to 64 workers, one of them in the
/// calling thread, each other in a thread of its own. It answers `NoMemory` only where a growth was refused, in whichever thread.
pub fn fill<
    A: Allocator + Copy + Send + Sync,
    J: Job<A> + Sync,
    L: Limited + Send + Sync,
    G: Gate + Sync,
    R: Threads + Wait + Sync,
>(
    rt: &R,
    alloc: A,
    blank: Blank,
    limit: u32,
    workers: u32,
    job: &J,
    phase: Phase,
    gate: &G,
) -> Result<FilledBook<J::Piece, L, A>, NoMemory>
where
    J::Piece: Send,
    requires name { blank.name ≡ L.name }
    requires parts { (blank.parts ≡ L.parts) × (blank.parts ≡ workers) }
    requires limit { (limit ≡ L.limit) × (limit ≤ MOST_NUMBERS) }
    requires workers { (0 < workers) × (workers ≤ MOST_HANDS) }
    requires count { limit ≤ J.count job.now }
    ensures limit { IfOk result (λ f. f.book.limit ≡ limit) }
    ensures counted { IfOk result (λ f. length f.book.accepted + f.returned ≡ limit) }
    ensures full { IfOk result (λ f. f.returned ≡ 0 → (k : ℕ) → k < limit → IsSome (slice_index_or f.book.held k None)) }
{
    let (draw, hands) = Draw::new(alloc, limit, workers)?;
    let (desk, shares) = Desk::new(alloc, blank, limit, workers)?;
    let seats = seats(alloc, &draw, hands, shares)?;
    let worker = |seat: Seat<L>| -> WorkOutcome<L>
        requires { (seat.hand.draw ≡ draw) × (seat.hand.drawn ≡ []) × (seat.share ≡ 0) × (draw.limit ≤ J.count job.now) }
        ensures { (result.hand.draw ≡ draw) × HasGrown result }
    {
        let Seat { hand, share } = seat;
        work(rt, alloc, job, phase, &draw, hand, &desk, share, gate)
    };
    // A worker whose thread can't be started works in the thread that would have started it, behind that one's own.
    let ended = thread::map_vec(rt, seats, &worker)?;
    settle(alloc, draw, desk, ended)
}

/// The pieces of all numbers below a limit.
#[derive(Drop)]
pub struct AllPieces<P, A: Allocator> {
    /// In the order of their numbers.
    pub pieces: Vec<P, A>,
    /// How many places the book left empty, whose pieces were made anew.
    pub remade: u32,
}

/// The pieces of a book, each at the place of its number, and a new one for each place that it left empty: `remade` is the
/// number of these, and 0 where the book is full.
pub fn complete<A: Allocator + Copy, J: Job<A>, L: Limited>(
    alloc: A,
    job: &J,
    book: Book<J::Piece, L, A>,
) -> Result<AllPieces<J::Piece, A>, NoMemory>
    requires few { book.limit ≤ MOST_NUMBERS }
    requires count { book.limit ≤ J.count job.now }
    ensures one_each { IfOk result (λ all. length all.pieces.items ≡ book.limit) }
    ensures in_order { IfOk result (λ all. StandInOrder J.Piece.Numbered.number_of all.pieces.items) }
    ensures few { IfOk result (λ all. all.remade ≤ book.limit) }
    ensures replay { IsReplay J.Piece.Numbered.number_of book }
    ensures kept { IfOk result (λ all. KeepsHeld book.held all.pieces.items) }
    ensures empty { IfOk result (λ all. all.remade + pieces book.held ≡ book.limit) }
    ensures full { IfOk result (λ all. ((k : ℕ) → k < book.limit → IsSome (slice_index_or book.held k None)) → all.remade ≡ 0) }
{
    let mut held = book.into_held();
    let mut pieces = Vec::with_capacity(alloc, held.len())?;
    let mut remade = 0;
    for number in 0..held.len() {
        let piece = match held[number].take() {
            Some(piece) => piece,
            None => {
                remade += 1;
                job.piece(alloc, number as u32)?
            }
        };
        pieces.push_reserved(piece);
    }
    Ok(AllPieces { pieces, remade })
}

/// Ends a pass of new hands and shares whose workers are all there: without a fault the draw is finished and the desk
/// closed, and where no piece came back either, the book is full.
pub fn settle<P: Numbered + Drop, L: Limited, A: Allocator + Copy>(
    alloc: A,
    draw: Draw<A>,
    desk: Desk<P, L, A>,
    ended: Vec<WorkOutcome<L>, A>,
) -> Result<FilledBook<P, L, A>, NoMemory>
    requires own { All (λ e. (e.hand.draw ≡ draw) × HasGrown e) ended.items }
    requires all { (vec_len ended ≡ draw.hands) × (draw.hands ≡ desk.shares) × (draw.hands ≤ MOST_HANDS) }
    requires limit { draw.limit ≡ desk.limit }
    ensures limit { IfOk result (λ f. f.book.limit ≡ desk.limit) }
    ensures counted { IfOk result (λ f. length f.book.accepted + f.returned ≡ desk.limit) }
    ensures full { IfOk result (λ f. f.returned ≡ 0 → (k : ℕ) → k < desk.limit → IsSome (slice_index_or f.book.held k None)) }
{
    let (hands, shares, returned) = parted(alloc, &draw, ended)?;
    let Ok(_drawn) = finish(draw, hands) else {
        unreachable!()
    };
    let Ok(book) = close(desk, shares) else {
        unreachable!()
    };
    Ok(FilledBook { book, returned })
}

// The hands and the shares, and how many pieces came back, where no worker has a fault.
fn parted<L: Limited, A: Allocator + Copy>(
    alloc: A,
    draw: &Draw<A>,
    mut ended: Vec<WorkOutcome<L>, A>,
) -> Result<(Vec<Hand, A>, Vec<Share<L>, A>, u64), NoMemory>
    requires own { All (λ e. (e.hand.draw ≡ draw.now) × HasGrown e) ended.items }
    requires few { vec_len ended ≤ MOST_HANDS }
    ensures lens { IfOk result (λ r. (vec_len r.0 ≡ vec_len ended) × (vec_len r.1 ≡ vec_len ended)) }
    ensures spent { IfOk result (λ r. All (λ h. (h.draw ≡ draw.now) × (h.spent ≡ true)) r.0.items) }
    ensures counted { IfOk result (λ r. sum r.1.items + r.2 ≡ length (flat_map (λ h. h.drawn) r.0.items)) }
{
    let mut hands = Vec::with_capacity(alloc, ended.len())?;
    let mut shares = Vec::with_capacity(alloc, ended.len())?;
    let mut all_returned = 0;
    while let Some(
        WorkOutcome {
            hand,
            share,
            returned,
            fault,
        },
    ) = ended.pop()
    {
        if fault.is_some() {
            return Err(NoMemory);
        }
        hands.push_reserved(hand);
        shares.push_reserved(share);
        all_returned += returned as u64;
    }
    Ok((hands, shares, all_returned))
}

//! Desks of one share.

ghost use Rattle.std.specs.Prelude.{◌≡◌, ◌≤◌, IfOk};

use crate::notes::Note;
use geom::NoMemory;
use std::alloc::Allocator;
use std::sync::ledger::Blank;
use tile_book::{Book, Desk, Limited, Share, close};

/// A desk, the list that its share was in, and the share.
type OneShare<L, A> = (Desk<Note, L, A>, Vec<Share<L>, A>, Share<L>);

pub fn desk_of_one<L: Limited, A: Allocator + Copy>(
    alloc: A,
    blank: Blank,
    limit: u32,
) -> Result<OneShare<L, A>, NoMemory>
    requires name { blank.name ≡ L.name }
    requires parts { (blank.parts ≡ L.parts) × (blank.parts ≡ 1) }
    requires limit { (limit ≡ L.limit) × (limit ≤ 65536) }
{
    let (desk, mut shares) = Desk::new(alloc, blank, limit, 1)?;
    match shares.pop() {
        Some(share) => Ok((desk, shares, share)),
        None => Err(NoMemory),
    }
}

/// Whether a book has a piece of each number.
pub fn is_full<L: Limited, A: Allocator>(book: &Book<Note, L, A>) -> bool {
    book.held().iter().all(|note| note.is_some())
}

/// Whether a desk can be closed with its share and not without, and its book has a piece of each number, accepted in this
/// order.
pub fn is_closed_full<L: Limited, A: Allocator>(
    desk: Desk<Note, L, A>,
    shares: Vec<Share<L>, A>,
    share: Share<L>,
    accepted: &[u32],
) -> Result<bool, NoMemory> {
    let Err((desk, mut shares)) = close(desk, shares) else {
        return Ok(false);
    };
    let none = shares.is_empty();
    shares.push(share)?;
    let Ok(book) = close(desk, shares) else {
        return Ok(false);
    };
    let same = book.accepted() == accepted && book.limit() as usize == accepted.len();
    Ok(none && same && is_full(&book))
}

//! The desk: a book under a lock, and its shares.

ghost use Rattle.std.specs.Prelude.{◌≡◌, ◌+◌, ◌<◌, ◌≤◌, ◌↔◌, ℕ, [], All, IfOk, IfErr, IsOk, IsSome, None, MatchResult, slice_index_or, length, sum, vec_len};
ghost use Rattle.tile_book.specs.Calls.{HasLegalPost, post_told};
ghost use Rattle.tile_book.specs.Replies.{SentBack};

use crate::book::{Book, Numbered, Returned};
use crate::draw::{MOST_HANDS, MOST_NUMBERS};
use crate::share::{Limited, Share};
use geom::NoMemory;
use std::alloc::Allocator;
use std::marker::Model;
use std::sync::ledger::Blank;
use std::sync::{Mutex, Wait, ledger};

/// A book under a lock. Contracts see how many shares it has.
#[derive(Drop)]
pub struct Desk<P: Numbered, L: Limited, A: Allocator> {
    limit: u32,
    shares: u32,
    book: Mutex<Book<P, L, A>>,
}

impl<P: Numbered, L: Limited, A: Allocator> Model for Desk<P, L, A> {
    ghost use Rattle.std.specs.Prelude.{◌≡◌, ◌<◌, ℕ};
    ghost use Rattle.tile_book.specs.Books.{DeskView};

    ghost Value = { DeskView };

    ghost view = { λ d. record { limit = d.limit; shares = d.shares } };

    ghost invariant = { λ d. (d.shares ≡ L.parts) × (0 < d.shares) × (d.limit ≡ L.limit) };
}

impl<P: Numbered + Drop, L: Limited, A: Allocator + Copy> Desk<P, L, A> {
    /// An empty book for the numbers below a limit, and that many shares of 0.
    pub fn new(
        alloc: A,
        blank: Blank,
        limit: u32,
        shares: u32,
    ) -> Result<(Desk<P, L, A>, Vec<Share<L>, A>), NoMemory>
        requires name { blank.name ≡ L.name }
        requires parts { (blank.parts ≡ L.parts) × (blank.parts ≡ shares) }
        requires limit { (limit ≡ L.limit) × (limit ≤ MOST_NUMBERS) }
        requires shares { (0 < shares) × (shares ≤ MOST_HANDS) }
        ensures { IfOk result (λ d. (d.0.limit ≡ limit) × (d.0.shares ≡ shares) × (vec_len d.1 ≡ shares) × All (λ s. s ≡ 0) d.1.items) }
    {
        let mut made = Vec::with_capacity(alloc, shares as usize)?;
        let mut held = Vec::with_capacity(alloc, limit as usize)?;
        for _ in 0..limit {
            held.push(None)?;
        }
        let accepted = Vec::with_capacity(alloc, limit as usize)?;
        let (tally, mut rest) = blank.open::<L>();
        for _ in 0..shares {
            let own = rest.split_off(1, 0);
            made.push(Share { own })?;
        }
        let book = Book {
            limit,
            held,
            accepted,
            tally,
        };
        Ok((
            Desk {
                limit,
                shares,
                book: Mutex::new(book),
            },
            made,
        ))
    }

    /// Takes the lock and posts: accepted, and the share grows by one; or the piece comes back, as a stranger where its
    /// number is not below the limit, else because a piece of its number is held.
    pub fn post(
        &self,
        rt: &impl Wait,
        share: Share<L>,
        piece: P,
    ) -> (Share<L>, Result<(), Returned<P>>)
        ensures answer { MatchResult result.1 (λ _. (P.number_of piece < self.now.limit) × (result.0 ≡ share + 1)) (λ r. SentBack P.number_of self.now.limit piece r × (result.0 ≡ share)) }
        ensures legal { HasLegalPost self.now.limit (P.number_of piece) (post_told result.1) }
    {
        self.book.lock(rt).post(share, piece)
    }
}

/// The book of a desk whose shares are all there. They add up to the pieces held.
pub fn close<P: Numbered + Drop, L: Limited, A: Allocator>(
    desk: Desk<P, L, A>,
    shares: Vec<Share<L>, A>,
) -> Result<Book<P, L, A>, (Desk<P, L, A>, Vec<Share<L>, A>)>
    ensures exact { IsOk result ↔ (vec_len shares ≡ desk.shares) }
    ensures limit { IfOk result (λ b. b.limit ≡ desk.limit) }
    ensures full { IfOk result (λ b. sum shares.items ≡ desk.limit → (k : ℕ) → k < b.limit → IsSome (slice_index_or b.held k None)) }
    ensures sum { IfOk result (λ b. length b.accepted ≡ sum shares.items) }
    ensures err { IfErr result (λ e. (e.0 ≡ desk) × (e.1 ≡ shares)) }
{
    if shares.len() != desk.shares as usize {
        return Err((desk, shares));
    }
    let Desk {
        limit: _,
        shares: _,
        book,
    } = desk;
    let mut book = book.into_inner();
    let all = merged(shares);
    book.audit(all);
    Ok(book)
}

// All shares in one.
fn merged<L: Limited, A: Allocator>(mut shares: Vec<Share<L>, A>) -> ledger::Share<L>
    requires { 0 < vec_len shares }
    ensures parts { result.parts ≡ vec_len shares }
    ensures amount { result.amount ≡ sum shares.items }
{
    let Some(Share { own: mut all }) = shares.pop() else {
        unreachable!()
    };
    while let Some(Share { own }) = shares.pop() {
        all.merge(own);
    }
    all
}

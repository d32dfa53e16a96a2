//! The pieces that were posted, by number, beside the numbers that were accepted.

ghost use Rattle.std.specs.Prelude.{◌≡◌, ◌+◌, ◌<◌, ◌≤◌, ℕ, None, MatchResult, length, slice_index_or};
ghost use Rattle.tile_book.specs.Books.{IsReplay};
ghost use Rattle.tile_book.specs.Calls.{HasHistory, PostsLegally, post_told};
ghost use Rattle.tile_book.specs.Replies.{IsPosted};

use crate::share::{Limited, Share};
use std::alloc::Allocator;
use std::marker::Model;
use std::sync::ledger;

/// What has a number.
pub trait Numbered {
    ghost number_of: { Self → ℕ };

    /// Its number.
    fn number(&self) -> u32
        ensures { result ≡ number_of self.now };
}

/// A piece that was not accepted.
#[derive(Drop)]
pub enum Returned<P> {
    /// Its number is not below the limit.
    Stranger(P),
    /// A piece of its number is held.
    Double(P),
}

/// The pieces that were accepted, each number once, and the accepted numbers in their order.
#[derive(Drop)]
pub struct Book<P: Numbered, L: Limited, A: Allocator> {
    pub(crate) limit: u32,
    pub(crate) held: Vec<Option<P>, A>,
    pub(crate) accepted: Vec<u32, A>,
    pub(crate) tally: ledger::Book<L>,
}

impl<P: Numbered, L: Limited, A: Allocator> Model for Book<P, L, A> {
    ghost use Rattle.std.specs.Prelude.{◌≡◌, ◌≤◌, vec_capacity, length};
    ghost use Rattle.tile_book.specs.Books.{BookView, IsReplay, book_of};

    ghost Value = { BookView P };

    ghost view = { λ b. book_of b.limit b.held.items b.accepted.items };

    ghost invariant = { λ b. IsReplay P.number_of (book_of b.limit b.held.items b.accepted.items) × (b.tally.total ≡ length b.accepted.items) × (b.limit ≤ vec_capacity b.accepted) × (b.limit ≡ L.limit) };
}

impl<P: Numbered + Drop, L: Limited, A: Allocator> Book<P, L, A> {
    /// Accepts a piece whose number is below the limit and not held yet, and counts it in the share. Otherwise the piece
    /// comes back and nothing has changed. It takes no memory.
    pub fn post(&mut self, share: Share<L>, piece: P) -> (Share<L>, Result<(), Returned<P>>)
        ensures limit { self.old.limit ≡ L.limit }
        ensures answer { IsPosted P.number_of self.old self.new piece share result.0 result.1 }
        ensures legal { PostsLegally self.old.limit self.old.accepted self.new.accepted (P.number_of piece) (post_told result.1) }
    {
        let number = piece.number();
        if number >= self.limit {
            return (share, Err(Returned::Stranger(piece)));
        }
        if self.held[number as usize].is_some() {
            return (share, Err(Returned::Double(piece)));
        }
        self.held[number as usize] = Some(piece);
        self.accepted.push_reserved(number);
        let Share { mut own } = share;
        self.tally.add(&mut own, 1);
        (Share { own }, Ok(()))
    }

    /// How many numbers it has room for.
    pub fn limit(&self) -> u32
        ensures { result ≡ self.now.limit }
    {
        self.limit
    }

    /// The pieces held, by number.
    pub fn held(&self) -> &[Option<P>]
        ensures held { result.now ≡ self.now.held }
        ensures replay { IsReplay P.number_of self.now }
    {
        self.held.as_slice()
    }

    /// The accepted numbers, in their order.
    pub fn accepted(&self) -> &[u32]
        ensures accepted { result.now ≡ self.now.accepted }
        ensures replay { IsReplay P.number_of self.now }
        ensures history { HasHistory self.now.limit self.now.accepted }
    {
        self.accepted.as_slice()
    }

    /// The pieces held, by number.
    pub fn into_held(self) -> Vec<Option<P>, A>
        ensures held { result.items ≡ self.held }
        ensures replay { IsReplay P.number_of self }
    {
        let Book {
            limit: _,
            held,
            accepted: _,
            tally: _,
        } = self;
        held
    }

    // All shares together have posted what was accepted.
    pub(crate) fn audit(&mut self, mut all: ledger::Share<L>)
        requires { all.parts ≡ L.parts }
        ensures same { self.new ≡ self.old }
        ensures whole { length self.old.accepted ≡ all.amount }
        ensures limit { self.old.limit ≡ L.limit }
        ensures replay { IsReplay P.number_of self.old }
    {
        self.tally.audit(&mut all);
    }
}

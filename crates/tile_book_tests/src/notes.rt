//! Pieces that are their numbers.

use geom::NoMemory;
use std::alloc::Allocator;
use tile_book::{Job, Numbered};

/// A piece that is its number.
#[derive(Drop)]
pub struct Note {
    pub number: u32,
}

impl Numbered for Note {
    ghost number_of = { λ n. n.number };

    fn number(&self) -> u32 {
        self.number
    }
}

/// Makes the notes of the numbers below `room`, and is refused memory for the others.
#[derive(Drop)]
pub struct Notes {
    pub count: u32,
    pub room: u32,
}

impl<A: Allocator + Copy> Job<A> for Notes {
    type Piece = Note;

    ghost count = { λ n. n.count };

    fn piece(&self, _alloc: A, number: u32) -> Result<Note, NoMemory> {
        if number >= self.room {
            return Err(NoMemory);
        }
        Ok(Note { number })
    }
}

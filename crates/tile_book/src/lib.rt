//! Pieces of numbers, made by many workers: a job and a limit in, one piece for each number below it out.
//!
//! 1. Hands draw numbers from one atomic word, each once (`draw`).
//! 2. A worker makes the piece of each number that its hand drew and posts it (`worker`) into a book under a lock (`desk`, `book`).
//! 3. A worker for each hand works at once (`crew`); where all are done, the book has what was posted, and what is missing is made
//!    (`filling`).
//!
//! The promise: the pieces are those of the job, in order, whatever the schedule was, and how many were made anew is told exactly. A book is
//! the replay of its history by its type; legal histories are defined in `specs/History`.
#![tactic(auto)]

mod book;
mod crew;
mod desk;
mod desk_core;
mod draw;
mod filling;
mod gate;
mod job;
mod laws;
mod share;
mod ticket;
mod worker;

pub use book::{Book, Numbered, Returned};
pub use desk::{Desk, close};
pub use desk_core::{Core, Event, Reply};
pub use draw::{Draw, Drawn, Hand, MOST_HANDS, MOST_NUMBERS, finish};
pub use filling::{AllPieces, FilledBook, complete, fill, settle};
pub use gate::{Gate, OpenGate, Phase};
pub use job::Job;
pub use laws::{accepted_at_most_once, all_posted_all_held, word_is_new, word_stays_near};
pub use share::{Limited, Share};
pub use worker::{WorkOutcome, work};

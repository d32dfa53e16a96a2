//! The hands of a run: a stage's work is cut into parts, each is made by one of them, and what they made is put behind one another.
//!
//! In: a list or its length, and a number of parts. Out: what a function makes of each part.
//!
//! 1. The work is cut into parts that follow one another (`part`).
//! 2. rayon maps the function over them (`parts`); two different calls at once are `join`.
//!
//! How much work is worth several parts stands in one table (`worth`).
//!
//! The promise: the answers stand in the order of the parts, each as the function's contract says it, whatever threads there were. The
//! definition of consecutive parts is `specs/Consecutive`, their laws are `proofs/Consecutive`.
#![tactic(auto)]

ghost use Rattle.std.specs.Thread.{IsSend, IsSync};

mod part;
mod parts;
pub mod worth;

pub use part::{Part, even_parts, joined, parts_of_work};
pub use parts::map_parts;
use std::thread::{self, Threads};

/// From so many hands on, the second call starts threads of its own.
const SHARED_OUT: usize = 4;

/// Calls both at once, by so many hands. Where a thread can't be started, its call is made behind the other one.
pub fn join<R: Threads + Sync, F: FnOnce() -> A + Send, G: FnOnce() -> B + Send, A: Send, B: Send>(
    rt: &R,
    hands: usize,
    f: F,
    g: G,
) -> (A, B)
    requires { F.pre f × G.pre g }
    ensures first { F.post f result.0 }
    ensures second { G.post g result.1 }
{
    if hands >= SHARED_OUT {
        return thread::join(rt, f, g);
    }
    let behind = move || -> (B, ())
        requires { IsSync R.row × IsSend G.row × IsSend B.row × G.pre g }
        ensures { G.post g result.0 }
    { thread::join(rt, g, || ()) };
    let (first, (second, ())) = thread::join(rt, f, behind);
    (first, second)
}

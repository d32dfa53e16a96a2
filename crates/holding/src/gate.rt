//! A gate that holds one worker until another has posted.

use std::sync::atomic::{AtomicBool, Ordering};
use std::thread;
use tile_book::{Gate, Phase};

/// How many turns number 0 is held at most.
const TURNS: u32 = 10_000_000;

/// Holds number 0 until the piece of another one was posted, or for so many turns.
#[derive(Drop)]
pub struct Holding {
    phase: Phase,
    number: u32,
    seen: AtomicBool,
    gave_up: AtomicBool,
}

impl Holding {
    /// Waits for the piece of this number in this phase.
    pub fn until(phase: Phase, number: u32) -> Holding {
        Holding {
            phase,
            number,
            seen: AtomicBool::new(false),
            gave_up: AtomicBool::new(false),
        }
    }

    /// Whether that piece was posted, and before number 0 went on.
    pub fn has_seen(&self) -> bool {
        self.seen.load(Ordering::SeqCst) && !self.gave_up.load(Ordering::SeqCst)
    }
}

impl Gate for Holding {
    fn drawn(&self, _phase: Phase, number: u32) {
        if number != 0 {
            return;
        }
        for _ in 0..TURNS {
            if self.seen.load(Ordering::SeqCst) {
                return;
            }
            thread::yield_now();
        }
        self.gave_up.store(true, Ordering::SeqCst);
    }

    fn posted(&self, phase: Phase, number: u32) {
        if phase == self.phase && number == self.number {
            self.seen.store(true, Ordering::SeqCst);
        }
    }
}

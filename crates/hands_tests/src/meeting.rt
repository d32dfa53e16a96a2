//! Whether two calls are at work at once.

use hands::join;
use std::sync::atomic::{AtomicBool, Ordering};
use std::thread;
use std::thread::Threads;

/// How many turns a call waits for the other one at most.
const TURNS: u32 = 10_000_000;

/// By new threads for both calls, and by one for the first alone.
const HANDS: [usize; 4] = [2, 3, 4, 64];

/// Says that a call has begun, and whether the other one does before this one ends.
fn meets(own: &AtomicBool, other: &AtomicBool) -> bool {
    own.store(true, Ordering::SeqCst);
    for _ in 0..TURNS {
        if other.load(Ordering::SeqCst) {
            return true;
        }
        thread::yield_now();
    }
    false
}

/// Whether both calls meet, by so many hands.
fn both_meet<R: Threads + Sync>(rt: &R, hands: usize) -> (bool, bool) {
    let first = AtomicBool::new(false);
    let second = AtomicBool::new(false);
    join(
        rt,
        hands,
        || meets(&first, &second),
        || meets(&second, &first),
    )
}

#[test]
fn both_calls_are_at_work_at_once(rt: HostRuntime) {
    for hands in HANDS {
        assert!(rt; both_meet(&rt, hands) == (true, true), "{hands}");
    }
}

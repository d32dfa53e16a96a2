//! Requests for memory that are refused.

ghost use Rattle.std.specs.Prelude.{◌≡◌};

use crate::notes::Note;
use bumpalo::Bump;
use geom::NoMemory;
use std::alloc::Global;
use std::marker::Brand;
use std::sync::ledger::Blank;
use std::test::Fail;
use tile_book::{Core, Desk, Draw, Limited};

const ROOM: usize = 448;

/// A heap of `ROOM` bytes of which that many are taken.
fn heap_with(alloc: Global, taken: usize) -> Result<Bump<Global>, NoMemory> {
    let heap = Bump::new(alloc);
    heap.set_allocation_limit(Some(ROOM));
    for _ in 0..taken {
        heap.try_alloc(0u8)?;
    }
    Ok(heap)
}

fn desk_fits<L: Limited>(heap: &Bump<Global>, blank: Blank) -> bool
    requires name { blank.name ≡ L.name }
    requires parts { (blank.parts ≡ L.parts) × (blank.parts ≡ 2) }
    requires limit { L.limit ≡ 8 }
{
    Desk::<Note, L, _>::new(heap, blank, 8, 2).is_ok()
}

/// Whether a draw, a core and a desk each fit into a heap of which so many bytes are taken.
fn fit_beside<L: Limited>(alloc: Global, taken: usize, blank: Blank) -> Result<[bool; 3], NoMemory>
    requires name { blank.name ≡ L.name }
    requires parts { (blank.parts ≡ L.parts) × (blank.parts ≡ 2) }
    requires limit { L.limit ≡ 8 }
{
    let draw = Draw::new(&heap_with(alloc, taken)?, 8, 2).is_ok();
    let core = Core::new(&heap_with(alloc, taken)?, 8, 2).is_ok();
    Ok([draw, core, desk_fits::<L>(&heap_with(alloc, taken)?, blank)])
}

/// With less and less room the last request is refused first, and then each before it.
#[test]
fn refuses_where_memory_does(rt: HostRuntime) -> Result<(), Fail> {
    let mut most = [0, 0, 0];
    for taken in 0..ROOM {
        let fit = fit_beside::<Brand>(rt.alloc(), taken, Blank::new(2))?;
        for (most, fits) in most.iter_mut().zip(fit) {
            assert!(rt; !fits || *most == taken, "{taken}");
            *most += usize::from(fits);
        }
    }
    // The bytes that each takes at least: a word; a test for each hand and number, and numbers; places and numbers.
    for (most, bytes) in most.into_iter().zip([8, 2 + 8 + 32, 64 + 32]) {
        assert!(rt;
            most > 0 && most <= (ROOM + 1).saturating_sub(bytes),
            "{most}"
        );
    }
    Ok(())
}

//! Edges whose rings are shells alone, of few edges and of about as many as are looked at so; and edges of other rings.

use crate::again::{first_lost, gives_again};
use geom::NoMemory;
use std::alloc::{Allocator, Global};

const TEXTS: [&str; 9] = [
    // three edges
    "MULTIPOLYGON (((0 0, 3 1, 1 2, 0 0)))",
    // four
    "MULTIPOLYGON (((-2 1, 0 -3, 2 1, 0 0, -2 1)))",
    // twelve, a cross
    "MULTIPOLYGON (((0 1, 1 1, 1 0, 2 0, 2 1, 3 1, 3 2, 2 2, 2 3, 1 3, 1 2, 0 2, 0 1)))",
    // a spiral, whose walk goes back and forth
    "MULTIPOLYGON (((0 0, 9 0, 9 9, 2 9, 2 4, 5 4, 5 6, 4 6, 4 7, 7 7, 7 2, 0 2, 0 0)))",
    // two shells apart, the first of fewer edges and of more
    "MULTIPOLYGON (((0 0, 2 0, 0 2, 0 0)), ((5 0, 7 0, 7 2, 5 2, 5 0)))",
    "MULTIPOLYGON (((0 0, 2 0, 2 2, 0 2, 0 0)), ((5 0, 7 0, 5 2, 5 0)))",
    // a shell with a hole apart
    "MULTIPOLYGON (((0 0, 9 0, 9 9, 0 9, 0 0), (2 2, 2 4, 4 2, 2 2)))",
    // a ring that touches itself, outside and inside
    "MULTIPOLYGON (((0 0, 2 0, 2 2, 0 2, 0 0)), ((2 2, 4 2, 4 4, 2 4, 2 2)))",
    "MULTIPOLYGON (((0 0, 9 0, 9 9, 0 9, 0 0), (0 0, 2 5, 5 2, 0 0)))",
];

/// Adds the points of a line from left to right, or back.
fn add_line<A: Allocator>(text: &mut String<A>, steps: u16, back: bool) -> Result<(), NoMemory> {
    for step in 0..steps {
        if back {
            write!(text, "{} 1, ", steps - 1 - step)?;
        } else {
            write!(text, "{step} 0, ")?;
        }
    }
    Ok(())
}

/// Writes a strip of twice as many edges as it has points in a line.
fn write_strip<A: Allocator>(text: &mut String<A>, steps: u16) -> Result<(), NoMemory> {
    text.push_str("MULTIPOLYGON (((")?;
    add_line(text, steps, false)?;
    add_line(text, steps, true)?;
    text.push_str("0 0)))")?;
    Ok(())
}

/// Whether a strip is given again.
fn gives_strip(alloc: Global, steps: u16) -> bool {
    let mut text = String::new(alloc);
    write_strip(&mut text, steps).is_ok() && gives_again(alloc, text.as_str())
}

#[test]
fn rings_by_hand(rt: HostRuntime) {
    assert_eq!(rt; first_lost(rt.alloc(), &TEXTS), None);
}

/// As many edges as are looked at as shells alone, and more.
#[test]
fn long_rings(rt: HostRuntime) {
    let given = (gives_strip(rt.alloc(), 512), gives_strip(rt.alloc(), 513));
    assert_eq!(rt; given, (true, true));
}

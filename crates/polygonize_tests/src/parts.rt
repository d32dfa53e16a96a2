//! Canonical texts: the edges of their rings give the text again where the rings are made in parts.

use crate::again::{directed_of, ending, write_ring};
use crate::{generated, worked};
use geom::NoMemory;
use polygonize::{ResultRings, rings_in_parts};
use std::alloc::{Allocator, Global};
use std::thread::Threads;

/// One part alone, some, and more than most of the texts have edges.
const PARTS: [usize; 5] = [0, 1, 2, 3, 64];

/// What stands before a ring's points.
fn before(number: usize, is_hole: bool) -> &'static str {
    if is_hole {
        ", ("
    } else if number == 0 {
        "MULTIPOLYGON ((("
    } else {
        "), (("
    }
}

fn write_rings<A: Allocator + Copy>(
    out: &mut String<A>,
    alloc: A,
    rings: &ResultRings<A>,
) -> Result<(), NoMemory> {
    for number in 0..rings.count() {
        let ring = rings.ring(alloc, number)?;
        write_ring(out, before(number, rings.is_hole(number)), &ring)?;
    }
    out.push_str(ending(rings.count()))?;
    Ok(())
}

/// Writes the rings of the edges of a text, made in so many parts.
fn write_again<R: Threads + Sync, A: Allocator + Copy + Send + Sync>(
    out: &mut String<A>,
    rt: &R,
    alloc: A,
    parts: usize,
    text: &str,
) -> Result<(), NoMemory> {
    let directed = directed_of(alloc, text)?;
    write_rings(out, alloc, &rings_in_parts(rt, alloc, parts, directed)?)
}

/// Whether the rings of the edges of a text, made in so many parts, are those of the text.
fn gives_again<R: Threads + Sync>(rt: &R, alloc: Global, parts: usize, text: &str) -> bool {
    let mut out = String::new(alloc);
    write_again(&mut out, rt, alloc, parts, text).is_ok() && out.as_str() == text
}

/// Whether they are for each number of parts.
fn always_gives_again<R: Threads + Sync>(rt: &R, alloc: Global, text: &str) -> bool {
    for parts in PARTS {
        if !gives_again(rt, alloc, parts, text) {
            return false;
        }
    }
    true
}

/// The first of these texts that isn't always given again.
fn first_lost<R: Threads + Sync>(
    rt: &R,
    alloc: Global,
    texts: &[&'static str],
) -> Option<&'static str> {
    for text in texts {
        if !always_gives_again(rt, alloc, text) {
            return Some(text);
        }
    }
    None
}

#[test]
fn worked_examples_in_parts(rt: HostRuntime) {
    assert_eq!(rt; first_lost(&rt, rt.alloc(), worked::texts()), None);
}

#[test]
fn generated_layers_in_parts(rt: HostRuntime) {
    assert_eq!(rt; first_lost(&rt, rt.alloc(), generated::texts()), None);
}

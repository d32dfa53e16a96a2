//! The canonical line of a result in parts:
//! 1. The first ring begins the line (`beginning`). Where there is none, the line is that of no polygons (`line_of_none`).
//! 2. The others are parted, with about as many points in each part, whose rings' texts are written one behind another (`rings_text`),
//!    those of all parts at once (`rings_text_in_parts`).
//! 3. Behind the last one the line is ended (`end`).

ghost use Rattle.std.specs.Prelude.{◌≡◌, ◌+◌, ◌^◌, ◌<◌, ◌≤◌, [], IfOk, length};
ghost use Rattle.polygonize.specs.Told.{told_at};
ghost use Rattle.wkt.specs.Canonical.{first_ring, line_end};
ghost use Rattle.wkt.specs.Readable.{IsReadable};
ghost use Rattle.results.specs.LineParts.{IsLine, IsPartOfLine, line_text};

use crate::text_parts::{TextParts, joined};
use geom::{NoMemory, Polygon};
use hands::{Part, map_parts, parts_of_work};
use polygonize::ResultRings;
use std::alloc::Allocator;
use std::thread::Threads;
use wkt::{POINT_BYTES, push_first_ring, push_line_end, push_next_ring, write_multi};

/// How many points the rings between two numbers have in their text, where each ends with its first one.
fn points_between<A: Allocator>(rings: &ResultRings<A>, from: usize, past: usize) -> usize
    requires inside { past ≤ length rings.now }
{
    let mut points = 0usize;
    for number in from..past {
        points = points
            .saturating_add(rings.points(number))
            .saturating_add(1);
    }
    points
}

/// The texts of the rings from one number to before another one, each behind another.
fn rings_text<A: Allocator + Copy>(
    alloc: A,
    rings: &ResultRings<A>,
    from: usize,
    past: usize,
) -> Result<Vec<u8, A>, NoMemory>
    requires order { from ≤ past }
    requires inside { past ≤ length rings.now }
    ensures { IfOk result (λ text. IsPartOfLine rings.now from past text.items) }
{
    let room = points_between(rings, from, past).saturating_mul(POINT_BYTES);
    let mut text = Vec::with_capacity(alloc, room)?;
    for number in from..past {
        let ring = rings.ring(alloc, number)?;
        push_next_ring(&mut text, rings.is_hole(number), &ring)?;
    }
    Ok(text)
}

/// The texts of all rings behind the first one, in at most so many parts with about as many points each.
fn rings_text_in_parts<A: Allocator + Copy + Send + Sync, R: Threads + Sync>(
    rt: &R,
    alloc: A,
    parts: usize,
    rings: &ResultRings<A>,
) -> Result<TextParts<A>, NoMemory>
    requires { 0 < length rings.now }
    ensures { IfOk result (λ text. IsPartOfLine rings.now 1 (length rings.now) text) }
{
    let parts = parts_of_work(
        alloc,
        rings.count() - 1,
        parts,
        |place: usize| -> usize
            requires { (place + 1 < length rings.now) × (length rings.now < 2 ^ 64) }
        { rings.points(place + 1).saturating_add(1) },
    )?;
    let texts = map_parts(
        rt,
        alloc,
        &parts,
        |part: Part| -> Result<Vec<u8, A>, NoMemory>
            requires { (part.from ≤ part.past) × (part.past + 1 ≤ length rings.now) × (length rings.now < 2 ^ 64) }
            ensures { IfOk result (λ text. IsPartOfLine rings.entry.now (part.from + 1) (part.past + 1) text.items) }
        { rings_text(alloc, rings, part.from + 1, part.past + 1) },
    )?;
    Ok(TextParts::of(texts))
}

/// The beginning of the line, with its first ring.
fn beginning<A: Allocator + Copy>(
    alloc: A,
    rings: &ResultRings<A>,
) -> Result<TextParts<A>, NoMemory>
    requires { 0 < length rings.now }
    ensures text { IfOk result (λ text. text ≡ first_ring (told_at rings.now 0).1) }
    ensures readable { IfOk result (λ text. IsReadable (told_at rings.now 0).1) }
{
    let mut text = Vec::with_capacity(alloc, rings.points(0).saturating_mul(POINT_BYTES))?;
    push_first_ring(&mut text, &rings.ring(alloc, 0)?)?;
    TextParts::one(alloc, text)
}

/// The end of the line.
fn end<A: Allocator + Copy>(alloc: A) -> Result<TextParts<A>, NoMemory>
    ensures { IfOk result (λ text. text ≡ line_end) }
{
    let mut text = Vec::new(alloc);
    push_line_end(&mut text)?;
    TextParts::one(alloc, text)
}

/// The line of no rings.
fn line_of_none<A: Allocator + Copy>(alloc: A) -> Result<TextParts<A>, NoMemory>
    ensures { IfOk result (λ text. text ≡ line_text []) }
{
    let polygons: Vec<Polygon<A>, A> = Vec::new(alloc);
    let text = write_multi(alloc, &polygons)?;
    TextParts::one(alloc, text)
}

/// The line of rings, in at most so many parts but for its beginning and its end.
pub fn line_in_parts<A: Allocator + Copy + Send + Sync, R: Threads + Sync>(
    rt: &R,
    alloc: A,
    parts: usize,
    rings: &ResultRings<A>,
) -> Result<TextParts<A>, NoMemory>
    ensures { IfOk result (λ text. IsLine rings.now text) }
{
    if rings.count() == 0 {
        return line_of_none(alloc);
    }
    let beginning = beginning(alloc, rings)?;
    let others = rings_text_in_parts(rt, alloc, parts, rings)?;
    joined(joined(beginning, others)?, end(alloc)?)
}

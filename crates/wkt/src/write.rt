//! Polygons, written as the canonical line.

ghost use Rattle.std.specs.Prelude.{◌≡◌, ◌++◌, ◌∷◌, [], ℕ, List, All, IfOk, OnOk, map};
ghost use Rattle.geom.specs.Limit.{InLimit};
ghost use Rattle.geom.specs.Canonical.{written_rings};
ghost use Rattle.geom.specs.Words.{pt_words};
ghost use Rattle.wkt.specs.Canonical.{closed, first_ring, line_end, more_of, multi_text, next_ring, polygon_text, ring_text};
ghost use Rattle.wkt.specs.Readable.{IsReadable, IsShort};
ghost use Rattle.wkt.specs.Refusals.{IsLayerOf, StandsFor};

use geom::{NoMemory, Polygon, Pt, SimpleRing};
use itoa::{Buffer, Integer};
use std::alloc::{AllocError, Allocator};

/// How many bytes the text of a point has at most, with a comma and a space behind it, where its coordinates have up to eight digits and a sign.
pub const POINT_BYTES: usize = 21;

/// Adds a number in decimal digits.
pub fn push_number<I: Integer, A: Allocator>(
    text: &mut Vec<u8, A>,
    number: I,
) -> Result<(), AllocError>
    ensures { OnOk result (text.new.items ≡ text.old.items ++ I.text number) }
{
    let mut buffer = Buffer::new();
    text.extend_from_slice(buffer.format(number).as_bytes())
}

/// Adds a point: x, a space, y.
pub fn push_point<A: Allocator>(text: &mut Vec<u8, A>, point: Pt) -> Result<(), AllocError>
    ensures text { OnOk result (text.new.items ≡ text.old.items ++ pt_words point) }
    ensures short { OnOk result (IsShort point) }
{
    push_number(text, point.x)?;
    text.push(b' ')?;
    push_number(text, point.y)
}

/// Adds a comma, a space and a point for each point.
fn push_more_points<A: Allocator>(text: &mut Vec<u8, A>, points: &[Pt]) -> Result<(), AllocError>
    ensures text { OnOk result (text.new.items ≡ text.old.items ++ more_of pt_words points.now) }
    ensures short { OnOk result (All IsShort points.now) }
{
    for point in points {
        text.extend_from_slice(b", ")?;
        push_point(text, *point)?;
    }
    Ok(())
}

/// Adds a ring, its first point again at its end.
fn push_ring<A: Allocator, B: Allocator>(
    text: &mut Vec<u8, A>,
    ring: &SimpleRing<B>,
) -> Result<(), AllocError>
    ensures text { OnOk result (text.new.items ≡ text.old.items ++ ring_text ring.now) }
    ensures readable { OnOk result (IsReadable ring.now) }
{
    let points = ring.points();
    text.push(b'(')?;
    push_point(text, points[0])?;
    push_more_points(text, &points[1..])?;
    push_more_points(text, &points[..1])?;
    text.push(b')')?;
    Ok(())
}

/// Adds a comma, a space and a ring for each ring.
fn push_more_rings<A: Allocator, B: Allocator>(
    text: &mut Vec<u8, A>,
    rings: &[SimpleRing<B>],
) -> Result<(), AllocError>
    ensures text { OnOk result (text.new.items ≡ text.old.items ++ more_of ring_text rings.now) }
    ensures readable { OnOk result (All IsReadable rings.now) }
{
    for ring in rings {
        text.extend_from_slice(b", ")?;
        push_ring(text, ring)?;
    }
    Ok(())
}

/// Adds a polygon, the shell before the holes.
fn push_polygon<A: Allocator, B: Allocator>(
    text: &mut Vec<u8, A>,
    polygon: &Polygon<B>,
) -> Result<(), AllocError>
    ensures text { OnOk result (text.new.items ≡ text.old.items ++ polygon_text polygon.now) }
    ensures readable { OnOk result (All IsReadable (polygon.now.shell ∷ polygon.now.holes)) }
{
    text.push(b'(')?;
    push_ring(text, polygon.shell())?;
    push_more_rings(text, polygon.holes())?;
    text.push(b')')?;
    Ok(())
}

/// Adds a comma, a space and a polygon for each polygon.
fn push_more_polygons<A: Allocator, B: Allocator>(
    text: &mut Vec<u8, A>,
    polygons: &[Polygon<B>],
) -> Result<(), AllocError>
    ensures text { OnOk result (text.new.items ≡ text.old.items ++ more_of polygon_text polygons.now) }
    ensures readable { OnOk result (All IsReadable (written_rings polygons.now)) }
{
    for polygon in polygons {
        text.extend_from_slice(b", ")?;
        push_polygon(text, polygon)?;
    }
    Ok(())
}

/// Adds the first ring of a line, with the words before it.
pub fn push_first_ring<A: Allocator, B: Allocator>(
    text: &mut Vec<u8, A>,
    ring: &SimpleRing<B>,
) -> Result<(), NoMemory>
    ensures text { OnOk result (text.new.items ≡ text.old.items ++ first_ring ring.now) }
    ensures readable { OnOk result (IsReadable ring.now) }
{
    text.extend_from_slice(b"MULTIPOLYGON ((")?;
    push_ring(text, ring)?;
    Ok(())
}

/// Adds a ring that comes behind another one of the line: a hole of the same polygon, or the next one's shell.
pub fn push_next_ring<A: Allocator, B: Allocator>(
    text: &mut Vec<u8, A>,
    is_hole: bool,
    ring: &SimpleRing<B>,
) -> Result<(), NoMemory>
    ensures text { OnOk result (text.new.items ≡ text.old.items ++ next_ring is_hole ring.now) }
    ensures readable { OnOk result (IsReadable ring.now) }
{
    let between: &[u8] = if is_hole { b", " } else { b"), (" };
    text.extend_from_slice(between)?;
    push_ring(text, ring)?;
    Ok(())
}

/// Ends a line behind its last ring.
pub fn push_line_end<A: Allocator>(text: &mut Vec<u8, A>) -> Result<(), NoMemory>
    ensures { OnOk result (text.new.items ≡ text.old.items ++ line_end) }
{
    text.extend_from_slice(b"))\n")?;
    Ok(())
}

/// How many points a polygon's text has, of which each ring's first one comes twice.
fn points_in<A: Allocator>(polygon: &Polygon<A>) -> usize {
    let mut points = polygon.shell().points().len().saturating_add(1);
    for hole in polygon.holes() {
        points = points.saturating_add(hole.points().len()).saturating_add(1);
    }
    points
}

/// Room for the text of polygons, in bytes, as long as it is in most maps.
fn room_for<A: Allocator>(polygons: &[Polygon<A>]) -> usize {
    let mut points = 0usize;
    for polygon in polygons {
        points = points.saturating_add(points_in(polygon));
    }
    points.saturating_mul(POINT_BYTES)
}

/// The canonical line of a list of polygons, in bytes, with LF at its end. Without it the line is a layer text whose rings
/// are those of the polygons, each closed; within the limits the line is accepted, and stands for them.
pub fn write_multi<A: Allocator, B: Allocator>(
    alloc: A,
    polygons: &[Polygon<B>],
) -> Result<Vec<u8, A>, NoMemory>
    ensures text { IfOk result (λ text. text.items ≡ multi_text polygons.now) }
    ensures reads { IfOk result (λ text. (line : List ℕ) × (text.items ≡ line ++ 10 ∷ []) × IsLayerOf line (map closed (written_rings polygons.now))) }
    ensures reads_again { IfOk result (λ text. All (λ ring. All InLimit ring) (written_rings polygons.now) → StandsFor text.items (written_rings polygons.now)) }
{
    let Some((first, rest)) = polygons.split_first() else {
        return Ok(Vec::from_slice(alloc, b"MULTIPOLYGON EMPTY\n")?);
    };
    let mut text = Vec::with_capacity(alloc, room_for(polygons))?;
    text.extend_from_slice(b"MULTIPOLYGON (")?;
    push_polygon(&mut text, first)?;
    push_more_polygons(&mut text, rest)?;
    text.extend_from_slice(b")\n")?;
    Ok(text)
}

//! The lists of the phases as C sees them, and back.

ghost use Rattle.std.specs.Prelude.{◌≡◌, ◌<◌, All, IfOk, map};
ghost use Rattle.overlay_c.specs.Strips.{IsCounted, IsLine, IsOpen, layer_number, told_carried, told_counted, told_line, told_open};

use crate::strip_items::{OverlayCarried, OverlayCounted, OverlayLine, OverlayOpen};
use geom::{Counted, Edge, NoMemory, Pt, Seg, Source};
use std::alloc::Global;
use strips_law::{Carried, Line, Open};

/// The number of a layer.
fn layer_number(layer: Source) -> u32
    ensures { result ≡ layer_number layer }
{
    match layer {
        Source::A => 0,
        Source::B => 1,
    }
}

/// The layer with this number.
pub fn source_of(layer: u32) -> Source
    ensures { layer < 2 → layer_number result ≡ layer }
{
    match layer {
        0 => Source::A,
        _ => Source::B,
    }
}

// ---- one item

/// A line, as C sees it.
pub fn told_line(line: Line) -> OverlayLine
    ensures { result ≡ told_line line }
{
    let Seg { a, b, layer } = line.segment;
    OverlayLine {
        number: line.number,
        layer: layer_number(layer),
        ax: a.x,
        ay: a.y,
        bx: b.x,
        by: b.y,
    }
}

/// The line that C sees so.
fn line_of(item: OverlayLine) -> Line
    requires { IsLine item }
    ensures { told_line result ≡ item }
{
    Line {
        number: item.number,
        segment: Seg {
            a: item.start(),
            b: item.end(),
            layer: source_of(item.layer),
        },
    }
}

/// A line that crosses a border, as C sees it.
fn told_open(line: Open) -> OverlayOpen
    ensures { result ≡ told_open line }
{
    let number = line.number;
    let layer = layer_number(line.layer);
    match line.near {
        Some(Pt { x, y }) => OverlayOpen {
            number,
            layer,
            has_pixel: 1,
            x,
            y,
        },
        None => OverlayOpen {
            number,
            layer,
            has_pixel: 0,
            x: 0,
            y: 0,
        },
    }
}

/// The line that C sees so.
fn open_of(item: OverlayOpen) -> Open
    requires { IsOpen item }
    ensures { told_open result ≡ item }
{
    let near = match item.has_pixel {
        0 => None,
        _ => Some(Pt {
            x: item.x,
            y: item.y,
        }),
    };
    Open {
        number: item.number,
        layer: source_of(item.layer),
        near,
    }
}

/// What is carried, as C sees it.
fn told_carried(carried: Carried) -> OverlayCarried
    ensures { result ≡ told_carried carried }
{
    OverlayCarried {
        number: carried.number,
        x: carried.pixel.x,
        y: carried.pixel.y,
    }
}

/// What C sees so.
fn carried_of(item: OverlayCarried) -> Carried
    ensures { told_carried result ≡ item }
{
    Carried {
        number: item.number,
        pixel: Pt {
            x: item.x,
            y: item.y,
        },
    }
}

/// A rounded edge, as C sees it.
fn told_counted(counted: Counted) -> OverlayCounted
    ensures { result ≡ told_counted counted }
{
    let Edge { p, q } = counted.edge;
    OverlayCounted {
        px: p.x,
        py: p.y,
        qx: q.x,
        qy: q.y,
        in_a: counted.in_a,
        in_b: counted.in_b,
    }
}

/// The edge that C sees so.
fn counted_of(item: OverlayCounted) -> Counted
    requires { IsCounted item }
    ensures { told_counted result ≡ item }
{
    Counted {
        edge: Edge {
            p: item.start(),
            q: item.end(),
        },
        in_a: item.in_a,
        in_b: item.in_b,
    }
}

// ---- lists

/// The lines that C sees so.
pub fn lines_of(alloc: Global, items: &[OverlayLine]) -> Result<Vec<Line>, NoMemory>
    requires { All IsLine items.now }
    ensures { IfOk result (λ v. items.now ≡ map told_line v.items) }
{
    let mut lines = Vec::with_capacity(alloc, items.len())?;
    for item in items {
        lines.push(line_of(*item))?;
    }
    Ok(lines)
}

/// Lines that cross a border, as C sees them.
pub fn told_opens(alloc: Global, opens: &[Open]) -> Result<Vec<OverlayOpen>, NoMemory>
    ensures { IfOk result (λ v. v.items ≡ map told_open opens.now) }
{
    let mut items = Vec::with_capacity(alloc, opens.len())?;
    for line in opens {
        items.push(told_open(*line))?;
    }
    Ok(items)
}

/// The lines that C sees so.
pub fn opens_of(alloc: Global, items: &[OverlayOpen]) -> Result<Vec<Open>, NoMemory>
    requires { All IsOpen items.now }
    ensures { IfOk result (λ v. items.now ≡ map told_open v.items) }
{
    let mut opens = Vec::with_capacity(alloc, items.len())?;
    for item in items {
        opens.push(open_of(*item))?;
    }
    Ok(opens)
}

/// All that is carried, as C sees it.
pub fn told_carried_all(alloc: Global, carried: &[Carried]) -> Result<Vec<OverlayCarried>, NoMemory>
    ensures { IfOk result (λ v. v.items ≡ map told_carried carried.now) }
{
    let mut items = Vec::with_capacity(alloc, carried.len())?;
    for one in carried {
        items.push(told_carried(*one))?;
    }
    Ok(items)
}

/// All that C sees so.
pub fn carried_of_all(alloc: Global, items: &[OverlayCarried]) -> Result<Vec<Carried>, NoMemory>
    ensures { IfOk result (λ v. items.now ≡ map told_carried v.items) }
{
    let mut carried = Vec::with_capacity(alloc, items.len())?;
    for item in items {
        carried.push(carried_of(*item))?;
    }
    Ok(carried)
}

/// Rounded edges, as C sees them.
pub fn told_edges(alloc: Global, edges: &[Counted]) -> Result<Vec<OverlayCounted>, NoMemory>
    ensures { IfOk result (λ v. v.items ≡ map told_counted edges.now) }
{
    let mut items = Vec::with_capacity(alloc, edges.len())?;
    for counted in edges {
        items.push(told_counted(*counted))?;
    }
    Ok(items)
}

/// The edges that C sees so.
pub fn edges_of(alloc: Global, items: &[OverlayCounted]) -> Result<Vec<Counted>, NoMemory>
    requires { All IsCounted items.now }
    ensures { IfOk result (λ v. items.now ≡ map told_counted v.items) }
{
    let mut edges = Vec::with_capacity(alloc, items.len())?;
    for item in items {
        edges.push(counted_of(*item))?;
    }
    Ok(edges)
}

//! The line of a row: twice its area, for each layer a tab and the numbers of its features, a tab, and the polygons.
//!
//! The features of all layers are numbered from 0, one layer's behind another's. So in a row's ascending features those of a layer stand together
//! (`of_layer`), and a feature's number in its layer is told from the layer's first one (`push_numbers`).

ghost use Rattle.std.specs.Prelude.{◌≡◌, ◌++◌, ◌<◌, ◌+◌, ◌-◌, ◌≤◌, suc, All, AllPairs, OnOk, drop, filter, length, map, sum_by, take};
ghost use Rattle.std.specs.Fmt.{signed_decimal};
ghost use Rattle.cover_law.specs.Areas.{row_area};
ghost use Rattle.faces_text.specs.Text.{fields_text, is_of_layer, numbers_text, row_text};
ghost use Rattle.faces_text.specs.Line.{holes_text, polygons_text};
ghost use Rattle.cover_law.specs.Rows.{Row};
ghost use Rattle.wkt.specs.Canonical.{multi_text};

use geom::{NoMemory, Polygon, SimpleRing};
use std::alloc::{AllocError, Allocator};
use wkt::{push_first_ring, push_line_end, push_next_ring, push_number, write_multi};

/// The number of a feature in its layer, from 1 on, where this is the layer's first one.
fn number_of(feature: u32, first: u32) -> u64
    requires { first ≤ feature }
    ensures { result ≡ suc (feature - first) }
{
    u64::from(feature - first) + 1
}

/// Adds the numbers of a layer's features, with commas between them.
fn push_numbers<A: Allocator>(
    text: &mut Vec<u8, A>,
    features: &[u32],
    first: u32,
) -> Result<(), AllocError>
    requires { All (λ f. first ≤ f) features.now }
    ensures { OnOk result (text.new.items ≡ text.old.items ++ numbers_text (map (λ f. suc (f - first)) features.now)) }
{
    let Some((feature, rest)) = features.split_first() else {
        return Ok(());
    };
    push_number(text, number_of(*feature, first))?;
    for feature in rest {
        text.push(b',')?;
        push_number(text, number_of(*feature, first))?;
    }
    Ok(())
}

/// How many of ascending features are below a number.
fn count_below(features: &[u32], past: u32) -> usize
    requires { AllPairs (λ f g. f < g) features.now }
    ensures within { result ≤ length features.now }
    ensures below { All (λ f. f < past) (take result features.now) }
    ensures above { All (λ f. past ≤ f) (drop result features.now) }
{
    features.partition_point(|f| *f < past)
}

/// Of ascending features those from one number to before another one.
pub fn of_layer(features: &[u32], first: u32, past: u32) -> &[u32]
    requires { AllPairs (λ f g. f < g) features.now }
    ensures { result.now ≡ filter (is_of_layer first past) features.now }
{
    let (_, rest) = features.split_at(count_below(features, first));
    let (all, _) = rest.split_at(count_below(rest, past));
    all
}

/// Adds a field for each layer: these are the numbers of the layers' features.
fn push_fields<A: Allocator>(
    text: &mut Vec<u8, A>,
    counts: &[u32],
    features: &[u32],
) -> Result<(), AllocError>
    requires ascending { AllPairs (λ f g. f < g) features.now }
    requires few { sum_by (λ c. c) counts.now < 4294967296 }
    ensures { OnOk result (text.new.items ≡ text.old.items ++ fields_text 0 counts.now features.now) }
{
    let mut first = 0u32;
    for count in counts {
        let past = first + *count;
        text.push(b'\t')?;
        push_numbers(text, of_layer(features, first, past), first)?;
        first = past;
    }
    Ok(())
}

/// Adds twice an area.
fn push_area<A: Allocator>(text: &mut Vec<u8, A>, twice_area: i128) -> Result<(), AllocError>
    ensures { OnOk result (text.new.items ≡ text.old.items ++ signed_decimal twice_area) }
{
    push_number(text, twice_area)
}

/// Adds holes, each behind another ring of its polygon.
fn push_holes<A: Allocator, B: Allocator>(
    text: &mut Vec<u8, A>,
    holes: &[SimpleRing<B>],
) -> Result<(), NoMemory>
    ensures { OnOk result (text.new.items ≡ text.old.items ++ holes_text holes.now) }
{
    for hole in holes {
        push_next_ring(text, true, hole)?;
    }
    Ok(())
}

/// Adds polygons, each behind another one.
fn push_more_polygons<A: Allocator, B: Allocator>(
    text: &mut Vec<u8, A>,
    polygons: &[Polygon<B>],
) -> Result<(), NoMemory>
    ensures { OnOk result (text.new.items ≡ text.old.items ++ polygons_text polygons.now) }
{
    for polygon in polygons {
        push_next_ring(text, false, polygon.shell())?;
        push_holes(text, polygon.holes())?;
    }
    Ok(())
}

/// Adds the canonical line of polygons.
fn push_polygons<A: Allocator + Copy>(
    alloc: A,
    text: &mut Vec<u8, A>,
    polygons: &[Polygon<A>],
) -> Result<(), NoMemory>
    ensures { OnOk result (text.new.items ≡ text.old.items ++ multi_text polygons.now) }
{
    let Some((first, rest)) = polygons.split_first() else {
        let line = write_multi(alloc, polygons)?;
        text.extend_from_slice(&line)?;
        return Ok(());
    };
    push_first_ring(text, first.shell())?;
    push_holes(text, first.holes())?;
    push_more_polygons(text, rest)?;
    push_line_end(text)
}

/// Adds the line of a row with these features, twice their area in grid units, and their polygons. The counts are the numbers of the layers'
/// features.
pub fn push_row<A: Allocator + Copy>(
    alloc: A,
    text: &mut Vec<u8, A>,
    counts: &[u32],
    features: &[u32],
    twice_area: i128,
    polygons: &[Polygon<A>],
) -> Result<(), NoMemory>
    requires ascending { AllPairs (λ f g. f < g) features.now }
    requires few { sum_by (λ c. c) counts.now < 4294967296 }
    ensures { (row : Row) → row.set ≡ features.now → row.polygons ≡ polygons.now → twice_area ≡ row_area row → OnOk result (text.new.items ≡ text.old.items ++ row_text counts.now row) }
{
    push_area(text, twice_area)?;
    push_fields(text, counts, features)?;
    text.push(b'\t')?;
    push_polygons(alloc, text, polygons)
}

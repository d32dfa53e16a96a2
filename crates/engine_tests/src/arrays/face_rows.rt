//! Faces of layers that are columns: the rows are those of the texts of the same rings, and what is refused.

use crate::arrays::random::{Both, Chance, layer_of};
use crate::arrays::written::push_polygons;
use columns::{Columns, ColumnsFault, Points};
use engine::{
    FacesColumns, FacesColumnsRefused, FacesLimits, FacesOutput, FacesRefusal, MOST_LAYERS,
    faces_alone, faces_columns_alone, faces_report_text,
};
use geom::{Fault, NoMemory};
use rows::{NumberLists, RowColumns};
use std::alloc::Global;
use std::test::Fail;

/// How many groups of layers are tried.
const GROUPS: u32 = 60;

/// The offset of a number, or 0 where there is none.
fn offset(offsets: &[u32], number: usize) -> usize {
    offsets.get(number).map_or(0, |offset| *offset as usize)
}

/// Adds the numbers of a list, counted from 1, with commas between.
fn push_list(
    alloc: Global,
    text: &mut Vec<u8>,
    lists: &NumberLists<Global>,
    list: usize,
) -> Result<(), NoMemory> {
    let from = offset(&lists.offsets, list);
    let past = offset(&lists.offsets, list.saturating_add(1));
    let Some(numbers) = lists.numbers.get(from..past) else {
        return Err(NoMemory);
    };
    for (place, number) in numbers.iter().enumerate() {
        if place > 0 {
            text.push(b',')?;
        }
        let digits = format!(in alloc; "{}", number.saturating_add(1))?;
        text.extend_from_slice(digits.as_bytes())?;
    }
    Ok(())
}

/// The lines of rows that are columns, of so many layers.
fn lines_of(
    alloc: Global,
    columns: &RowColumns<Global>,
    layers: usize,
) -> Result<Vec<u8>, NoMemory> {
    let mut text = Vec::new(alloc);
    let rows = columns.twice_areas.len();
    for row in 0..rows {
        let area = format!(in alloc; "{}", columns.twice_areas[row])?;
        text.extend_from_slice(area.as_bytes())?;
        for layer in 0..layers {
            text.push(b'\t')?;
            let list = layer.saturating_mul(rows).saturating_add(row);
            push_list(alloc, &mut text, &columns.features, list)?;
        }
        text.push(b'\t')?;
        let from = offset(&columns.rows, row);
        let past = offset(&columns.rows, row.saturating_add(1));
        push_polygons(alloc, &mut text, &columns.columns, from, past)?;
    }
    Ok(text)
}

/// Lines and report of the faces of layers, by their texts; none where they are refused.
fn told_by_texts(alloc: Global, layers: &[Both]) -> Result<Option<(Vec<u8>, Vec<u8>)>, NoMemory> {
    let mut texts: Vec<&[u8]> = Vec::new(alloc);
    for layer in layers {
        texts.push(&layer.text)?;
    }
    if texts.len() > MOST_LAYERS {
        return Ok(None);
    }
    match faces_alone(alloc, &texts, 16, FacesLimits::default()) {
        Ok(FacesOutput { text, report }) => { Ok(Some((text, faces_report_text(alloc, &report)?))) }
        Err(_) => Ok(None),
    }
}

/// The same by their columns.
fn told_by_columns(alloc: Global, layers: &[Both]) -> Result<Option<(Vec<u8>, Vec<u8>)>, NoMemory> {
    let mut lent = Vec::new(alloc);
    for layer in layers {
        lent.push(layer.columns())?;
    }
    if lent.len() > MOST_LAYERS {
        return Ok(None);
    }
    match faces_columns_alone(alloc, &lent, 16, FacesLimits::default()) {
        Ok(FacesColumns { columns, report }) => {
            let lines = lines_of(alloc, &columns, layers.len())?;
            Ok(Some((lines, faces_report_text(alloc, &report)?)))
        }
        Err(_) => Ok(None),
    }
}

/// Whether layers have the same rows and the same report by columns as by texts.
fn is_same(alloc: Global, layers: &[Both]) -> Result<bool, NoMemory> {
    let by_texts = told_by_texts(alloc, layers)?;
    Ok(by_texts.is_some() && by_texts == told_by_columns(alloc, layers)?)
}

#[test]
fn columns_and_texts_have_one_list_of_rows(rt: HostRuntime) -> Result<(), Fail> {
    let mut chance = Chance { state: 88_675_123 };
    for group in 0..GROUPS {
        let mut layers = Vec::new(rt.alloc());
        for _ in 0..group % 4 {
            layers.push(layer_of(rt.alloc(), &mut chance)?)?;
        }
        assert!(rt; is_same(rt.alloc(), &layers)?, "{group}");
    }
    Ok(())
}

/// A layer with one feature of one polygon, whose rings have these points.
fn layer_with<'a>(coordinates: &'a [i32], rings: &'a [u32]) -> Columns<'a> {
    Columns {
        points: Points::Interleaved(coordinates),
        rings,
        polygons: &[0, 1],
        features: &[0, 1],
    }
}

/// The points of a square of two units.
const SQUARE: [i32; 10] = [0, 0, 2, 0, 2, 2, 0, 2, 0, 0];

/// Those of the same square, one unit to the right.
const RIGHT: [i32; 10] = [1, 0, 3, 0, 3, 2, 1, 2, 1, 0];

/// The rows of the faces of layers, where they aren't refused.
fn rows_of(alloc: Global, layers: &[Columns<'_>]) -> Option<RowColumns<Global>> {
    if layers.len() > MOST_LAYERS {
        return None;
    }
    match faces_columns_alone(alloc, layers, 16, FacesLimits::default()) {
        Ok(made) => {
            let FacesColumns { columns, .. } = made;
            Some(columns)
        }
        Err(_) => None,
    }
}

/// Why the faces of layers are refused, if they are.
fn refused(
    alloc: Global,
    layers: &[Columns<'_>],
    side: u32,
    limits: FacesLimits,
) -> Option<FacesColumnsRefused> {
    if layers.len() > MOST_LAYERS {
        return None;
    }
    match faces_columns_alone(alloc, layers, side, limits) {
        Ok(_) => None,
        Err(refused) => Some(refused),
    }
}

/// The coordinates of the three rectangles that both squares have.
const RECTANGLES: [i32; 30] = [
    0, 0, 1, 0, 1, 2, 0, 2, 0, 0, 1, 0, 2, 0, 2, 2, 1, 2, 1, 0, 2, 0, 3, 0, 3, 2, 2, 2, 2, 0,
];

/// Whether rows are these rectangles: in the first layer alone, in both, in the second one alone.
fn are_rectangles(rows: &RowColumns<Global>) -> bool {
    rows.twice_areas.as_slice() == [4, 4, 4].as_slice()
        && rows.features.numbers.as_slice() == [0, 0, 0, 0].as_slice()
        && rows.features.offsets.as_slice() == [0, 1, 2, 2, 2, 3, 4].as_slice()
        && rows.columns.coordinates.as_slice() == RECTANGLES.as_slice()
        && rows.columns.rings.as_slice() == [0, 5, 10, 15].as_slice()
        && rows.columns.polygons.as_slice() == [0, 1, 2, 3].as_slice()
        && rows.rows.as_slice() == [0, 1, 2, 3].as_slice()
}

#[test]
fn two_squares_have_three_rows(rt: HostRuntime) -> Result<(), Fail> {
    let rings = [0, 5];
    let layers = [layer_with(&SQUARE, &rings), layer_with(&RIGHT, &rings)];
    let rows = rows_of(rt.alloc(), &layers);
    assert!(rt; rows.is_some_and(|rows| are_rectangles(&rows)));
    Ok(())
}

#[test]
fn refuses_the_first_layer_at_fault(rt: HostRuntime) -> Result<(), Fail> {
    let good = layer_with(&SQUARE, &[0, 5]);
    let open = layer_with(&SQUARE, &[0, 4]);
    let short = layer_with(&SQUARE, &[0, 3]);
    let limits = FacesLimits::default();
    let side = FacesColumnsRefused::Run(FacesRefusal::Usual(Fault::BadTile));
    let layer = FacesColumnsRefused::Layer(1, ColumnsFault::RingOpen(0));
    for (layers, tile, reason) in [
        ([good, open, short], 15, Some(side)),
        ([good, open, short], 16, Some(layer)),
        ([good, good, good], 16, None),
    ] {
        assert_eq!(rt; refused(rt.alloc(), &layers, tile, limits), reason);
    }
    Ok(())
}

#[test]
fn refuses_more_than_the_limits(rt: HostRuntime) -> Result<(), Fail> {
    let good = layer_with(&SQUARE, &[0, 5]);
    let too_many_segments = FacesRefusal::Usual(Fault::TooManySegments(8));
    for (segments, ids, refusal) in [
        (7, 2, Some(too_many_segments)),
        (8, 1, Some(FacesRefusal::TooManyIds(2))),
        (8, 2, None),
    ] {
        let limits = FacesLimits { segments, ids };
        let reason = refusal.map(FacesColumnsRefused::Run);
        assert_eq!(rt; refused(rt.alloc(), &[good, good], 16, limits), reason);
    }
    Ok(())
}

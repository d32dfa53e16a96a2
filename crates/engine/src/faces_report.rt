//! The numbers of a run that made faces, and their text.

ghost use Rattle.std.specs.Prelude.{◌≡◌, ◌++◌, IfOk, OnOk};
ghost use Rattle.engine.specs.FaceWords.{faces_report_of, faces_sums_of, faces_totals_of, features_line, segments_line};

use geom::NoMemory;
use layers::LayerSize;
use results::{push_line, push_tile};
use std::alloc::{AllocError, Allocator};
use wkt::push_number;

/// The numbers of a run that made faces.
#[derive(Debug, Drop)]
pub struct FacesReport<A: Allocator> {
    /// The segments and the features of each layer.
    pub layers: Vec<LayerSize, A>,
    /// The hot pixels.
    pub hot: u64,
    /// The pixels on the routes of all segments.
    pub records: u64,
    /// The rounded edges that are the border of some feature.
    pub edges: u32,
    /// The sets of features that have a row.
    pub rows: u64,
    /// The features of all rows together.
    pub ids: u64,
    /// The pieces of cells that were made anew.
    pub remade: u32,
    /// Each tile's own hot pixels, and its records.
    pub tiles: Vec<(u32, u32), A>,
}

/// Adds the line of the layers' segments.
fn push_segments<A: Allocator>(
    text: &mut Vec<u8, A>,
    layers: &[LayerSize],
) -> Result<(), AllocError>
    ensures { OnOk result (text.new.items ≡ text.old.items ++ segments_line layers.now) }
{
    text.extend_from_slice(b"segments")?;
    for layer in layers {
        text.push(b' ')?;
        push_number(text, layer.segments)?;
    }
    text.push(b'\n')?;
    Ok(())
}

/// Adds the line of the layers' features.
fn push_features<A: Allocator>(
    text: &mut Vec<u8, A>,
    layers: &[LayerSize],
) -> Result<(), AllocError>
    ensures { OnOk result (text.new.items ≡ text.old.items ++ features_line layers.now) }
{
    text.extend_from_slice(b"features")?;
    for layer in layers {
        text.push(b' ')?;
        push_number(text, layer.features)?;
    }
    text.push(b'\n')?;
    Ok(())
}

/// Adds the numbers of all layers and rows together.
fn push_sums<A: Allocator>(text: &mut Vec<u8, A>, report: &FacesReport<A>) -> Result<(), AllocError>
    ensures { OnOk result (text.new.items ≡ text.old.items ++ faces_sums_of report.now) }
{
    push_line(text, "hot", report.hot)?;
    push_line(text, "records", report.records)?;
    push_line(text, "edges", report.edges)?;
    push_line(text, "rows", report.rows)?;
    push_line(text, "ids", report.ids)
}

/// Adds the lines above those of the tiles.
fn push_totals<A: Allocator>(
    text: &mut Vec<u8, A>,
    report: &FacesReport<A>,
) -> Result<(), AllocError>
    ensures { OnOk result (text.new.items ≡ text.old.items ++ faces_totals_of report.now) }
{
    push_segments(text, &report.layers)?;
    push_features(text, &report.layers)?;
    push_sums(text, report)?;
    push_line(text, "tiles", report.tiles.len())?;
    push_line(text, "remade", report.remade)
}

/// The report's text.
pub fn faces_report_text<A: Allocator>(
    alloc: A,
    report: &FacesReport<A>,
) -> Result<Vec<u8, A>, NoMemory>
    ensures { IfOk result (λ text. text.items ≡ faces_report_of report.now) }
{
    let mut text = Vec::new(alloc);
    push_totals(&mut text, report)?;
    for (number, tile) in report.tiles.iter().enumerate() {
        push_tile(&mut text, number, *tile)?;
    }
    Ok(text)
}

//! Rows as columns.

ghost use Rattle.std.specs.Prelude.{◌≡◌, ◌<◌, ◌++◌, ◌∷◌, [], All, AllPairs, IfOk, List, OnOk, map, sum_by};
ghost use Rattle.cover_law.specs.Areas.{row_area};
ghost use Rattle.geom.specs.Canonical.{Shape};
ghost use Rattle.rows.specs.Made.{row_of};
ghost use Rattle.rows.specs.RowColumns.{AreRowColumns, HaveShapes, shapes_in};

use crate::number_lists::{NumberLists, lists_of};
use crate::parts::Row;
use columns::{OwnedColumns, columns_of};
use geom::{NoMemory, Polygon};
use std::alloc::Allocator;

/// Rows as columns, in grid units.
#[derive(Debug, Drop)]
pub struct RowColumns<A: Allocator> {
    /// Twice the area of each row.
    pub twice_areas: Vec<i64, A>,
    /// For each layer, and each row in it, the numbers of the layer's features that the row has, counted from 0. Those of the layer with a
    /// number are the lists from that many times the number of the rows on.
    pub features: NumberLists<A>,
    /// The polygons of all rows, those of the first row first.
    pub columns: OwnedColumns<A>,
    /// Where each row begins among the polygons, and where the last one ends.
    pub rows: Vec<u32, A>,
}

/// Twice the areas of rows. One that its column can't hold is want of memory.
fn areas_of<A: Allocator, B: Allocator>(alloc: A, rows: &[Row<B>]) -> Result<Vec<i64, A>, NoMemory>
    requires { All (λ r. r.twice_area ≡ row_area (row_of r)) rows.now }
    ensures { IfOk result (λ areas. areas.items ≡ map (λ r. row_area (row_of r)) rows.now) }
{
    let mut areas = Vec::with_capacity(alloc, rows.len())?;
    for row in rows {
        areas.push(i64::try_from(row.twice_area).map_err(|_| NoMemory)?)?;
    }
    Ok(areas)
}

/// The polygons of rows so far: all of them, and where those of each row begin, and the last ones end.
#[derive(Drop)]
pub(crate) struct RowPolygons<A: Allocator> {
    pub polygons: Vec<Polygon<A>, A>,
    pub rows: Vec<u32, A>,
}

impl<A: Allocator + Copy> RowPolygons<A> {
    /// Those of no rows.
    fn new(alloc: A) -> Result<RowPolygons<A>, NoMemory>
        ensures { IfOk result (λ p. HaveShapes [] p) }
    {
        let mut rows = Vec::new(alloc);
        rows.push(0)?;
        Ok(RowPolygons {
            polygons: Vec::new(alloc),
            rows,
        })
    }

    /// Adds those of the next row.
    fn push(&mut self, mut polygons: Vec<Polygon<A>, A>) -> Result<(), NoMemory>
        ensures { (lists : List (List Shape)) → HaveShapes lists self.old → OnOk result (HaveShapes (lists ++ polygons.items ∷ []) self.new) }
    {
        self.polygons.append(&mut polygons)?;
        let past = self.polygons.len();
        self.rows.push(u32::try_from(past).map_err(|_| NoMemory)?)?;
        Ok(())
    }
}

/// The polygons of rows, which are taken out of these.
fn polygons_of<A: Allocator + Copy>(
    alloc: A,
    rows: Vec<Row<A>, A>,
) -> Result<RowPolygons<A>, NoMemory>
    ensures { IfOk result (HaveShapes (shapes_in (map row_of rows.items))) }
{
    let mut all = RowPolygons::new(alloc)?;
    for row in rows {
        let Row { polygons, .. } = row;
        all.push(polygons)?;
    }
    Ok(all)
}

/// The columns of rows. The counts are the numbers of the layers' features. More numbers, polygons or points than offsets can tell are want of memory.
pub fn columns_of_rows<A: Allocator + Copy>(
    alloc: A,
    counts: &[u32],
    rows: Vec<Row<A>, A>,
) -> Result<RowColumns<A>, NoMemory>
    requires few { sum_by (λ c. c) counts.now < 4294967296 }
    requires ascending { All (λ r. AllPairs (λ f g. f < g) r.features.items) rows.items }
    requires areas { All (λ r. r.twice_area ≡ row_area (row_of r)) rows.items }
    ensures { IfOk result (AreRowColumns counts.now (map row_of rows.items)) }
{
    let twice_areas = areas_of(alloc, &rows)?;
    let features = lists_of(alloc, counts, &rows)?;
    let RowPolygons { polygons, rows } = polygons_of(alloc, rows)?;
    let columns = columns_of(alloc, &polygons)?;
    Ok(RowColumns {
        twice_areas,
        features,
        columns,
        rows,
    })
}

//! Row sets nearly in the order of their features: by the least and the greatest one of each. Most sets differ in these.

ghost use Rattle.std.specs.Prelude.{◌≡◌, All, IfOk, IsPermutation, map};
ghost use Rattle.cover_sets.specs.Sets.{IsNumber};

use crate::runs::RowSet;
use cover_sets::Sets;
use geom::NoMemory;
use std::alloc::Allocator;

/// A row set with the least and the greatest of its features, and ordered by these.
#[derive(Clone, Copy, Debug, PartialEq, Eq, PartialOrd, Ord)]
struct Ends {
    least: u32,
    greatest: u32,
    row_set: RowSet,
}

/// A row set with these.
fn ends_of<A: Allocator + Copy>(sets: &Sets<A>, row_set: RowSet) -> Ends
    requires { IsNumber sets.now row_set.set }
    ensures { result.row_set ≡ row_set }
{
    Ends {
        least: sets.least(row_set.set).unwrap_or(0),
        greatest: sets.greatest(row_set.set).unwrap_or(0),
        row_set,
    }
}

/// Row sets, each with these.
fn all_ends<A: Allocator + Copy>(
    alloc: A,
    sets: &Sets<A>,
    row_sets: &[RowSet],
) -> Result<Vec<Ends, A>, NoMemory>
    requires { All (λ r. IsNumber sets.now r.set) row_sets.now }
    ensures { IfOk result (λ list. map (λ e. e.row_set) list.items ≡ row_sets.now) }
{
    let mut list = Vec::with_capacity(alloc, row_sets.len())?;
    for row_set in row_sets {
        list.push(ends_of(sets, *row_set))?;
    }
    Ok(list)
}

/// The row sets of these.
fn row_sets_of<A: Allocator>(alloc: A, ends: &[Ends]) -> Result<Vec<RowSet, A>, NoMemory>
    ensures { IfOk result (λ list. list.items ≡ map (λ e. e.row_set) ends.now) }
{
    let mut list = Vec::with_capacity(alloc, ends.len())?;
    for one in ends {
        list.push(one.row_set)?;
    }
    Ok(list)
}

/// Row sets nearly in the order of their features.
pub fn nearly_in_order<A: Allocator + Copy>(
    alloc: A,
    sets: &Sets<A>,
    row_sets: &[RowSet],
) -> Result<Vec<RowSet, A>, NoMemory>
    requires { All (λ r. IsNumber sets.now r.set) row_sets.now }
    ensures { IfOk result (λ list. IsPermutation row_sets.now list.items) }
{
    let all = all_ends(alloc, sets, row_sets)?;
    let all = range_sort::sorted(all, |ends: &Ends| i64::from(ends.least));
    let list = row_sets_of(alloc, &all)?;
    Ok(list)
}

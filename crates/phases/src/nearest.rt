//! Of each line the record of a strip that is nearest to a border of it.

ghost use Rattle.std.specs.Prelude.{◌≡◌, ◌<◌, ◌++◌, ◌∷◌, [], ℕ, All, IfOk, List, None, Some, replicate};
ghost use Rattle.routing.specs.declared.record.Record.{Record};
ghost use Rattle.phases.specs.Nearest.{AreNearest, IsNearest};

use geom::NoMemory;
use routing::Record;
use std::alloc::Allocator;

/// The side of a strip.
#[derive(Clone, Copy)]
pub(crate) enum Side {
    Left,
    Right,
}

/// Which of two records of a line is nearer to the side.
fn nearer(side: Side, known: Option<Record>, other: Record) -> Record
    ensures { (number : ℕ) (records : List Record) → IsNearest side number records known → other.segment ≡ number → IsNearest side number (records ++ other ∷ []) (Some result) }
{
    let Some(near) = known else {
        return other;
    };
    let replaces = match side {
        Side::Left => other.steps < near.steps,
        Side::Right => near.steps < other.steps,
    };
    if replaces { other } else { near }
}

/// So many times none.
fn none_each<A: Allocator>(alloc: A, count: usize) -> Result<Vec<Option<Record>, A>, NoMemory>
    ensures { IfOk result (λ v. v.items ≡ replicate count None) }
{
    let mut nears = Vec::with_capacity(alloc, count)?;
    for _ in 0..count {
        nears.push(None)?;
    }
    Ok(nears)
}

/// For each of so many lines that of its records that is nearest to a side of their strip.
pub(crate) fn nearest<A: Allocator>(
    alloc: A,
    side: Side,
    count: usize,
    records: &[Record],
) -> Result<Vec<Option<Record>, A>, NoMemory>
    requires { All (λ r. r.segment < count) records.now }
    ensures { IfOk result (λ v. AreNearest side count records.now v.items) }
{
    let mut nears = none_each(alloc, count)?;
    for record in records {
        let number = record.segment as usize;
        nears[number] = Some(nearer(side, nears[number], *record));
    }
    Ok(nears)
}

//! Polygons as columns, in order.

ghost use Rattle.std.specs.Prelude.{◌<◌, ◌-◌, All, IfOk, MatchResult, length, map};
ghost use Rattle.polygon_order.specs.Order.{AreColumnsAsWritten, AreInShellOrder, AreWhole, FailsOrder};
ghost use Rattle.polygon_order.specs.Shells.{polygons_at};

use crate::copying::{no_polygons, push_polygon};
use crate::given::PolygonColumns;
use crate::shells::{Shell, shell_twice, shells_in_order};
use columns::OwnedColumns;
use geom::NoMemory;
use std::alloc::Allocator;

/// Why polygons have no order.
#[derive(Clone, Copy, Debug, PartialEq, Eq)]
pub enum OrderFault {
    /// The polygon with this number has the shell of another one.
    ShellTwice(usize),
    /// Memory ran out.
    Memory,
}

/// The columns of the polygons of these shells.
fn copied<A: Allocator + Copy>(
    alloc: A,
    columns: PolygonColumns<'_>,
    shells: &[Shell<'_>],
) -> Result<OwnedColumns<A>, NoMemory>
    requires whole { AreWhole columns.coordinates.now columns.rings.now columns.polygons.now }
    requires inside { All (λ s. s.number < length columns.polygons.now - 1) shells.now }
    ensures { IfOk result (λ made. AreColumnsAsWritten (polygons_at columns.entry (map (λ s. s.number) shells.now)) made) }
{
    let mut made = no_polygons(alloc, columns)?;
    for shell in shells {
        push_polygon(&mut made, columns, shell.number)?;
    }
    Ok(made)
}

/// The columns of the same polygons in the order of their shells.
pub fn ordered<A: Allocator + Copy>(
    alloc: A,
    columns: PolygonColumns<'_>,
) -> Result<OwnedColumns<A>, OrderFault>
    requires { AreWhole columns.coordinates.now columns.rings.now columns.polygons.now }
    ensures { MatchResult result (λ made. AreInShellOrder columns.entry.coordinates.now columns.entry.rings.now columns.entry.polygons.now made) (λ fault. FailsOrder columns.entry.coordinates.now columns.entry.rings.now columns.entry.polygons.now fault) }
{
    let Ok(shells) = shells_in_order(alloc, columns) else {
        return Err(OrderFault::Memory);
    };
    if let Some(number) = shell_twice(columns, &shells) {
        return Err(OrderFault::ShellTwice(number));
    }
    match copied(alloc, columns, &shells) {
        Ok(made) => Ok(made),
        Err(_) => Err(OrderFault::Memory),
    }
}

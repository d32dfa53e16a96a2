//! The edges that change a parity. On a map of parcels most edges are borders of two of them: such an edge occurs an even number of
//! times in either layer, so it bounds no result, and no parity needs it.

ghost use Rattle.std.specs.Prelude.{◌≡◌, ◌++◌, [], ◌∷◌, if◌then◌else◌, IfOk, OnOk, filter};
ghost use Rattle.label_sweep.specs.Changing.{changes};

use geom::{Counted, NoMemory};
use std::alloc::Allocator;

/// Whether an edge occurs an odd number of times in one layer at least.
fn is_odd_in_some(one: &Counted) -> bool
    ensures { result ≡ changes one.now }
{
    one.in_a % 2 == 1 || one.in_b % 2 == 1
}

/// Adds an edge, if it does.
fn add_changing<A: Allocator>(edges: &mut Vec<Counted, A>, one: &Counted) -> Result<(), NoMemory>
    ensures { OnOk result (edges.new.items ≡ edges.old.items ++ (if changes one.now then one.now ∷ [] else [])) }
{
    if is_odd_in_some(one) {
        edges.push(*one)?;
    }
    Ok(())
}

/// The edges that occur an odd number of times in one layer at least, in their order.
pub fn changing_edges<A: Allocator>(
    alloc: A,
    counted: &[Counted],
) -> Result<Vec<Counted, A>, NoMemory>
    ensures { IfOk result (λ edges. edges.items ≡ filter changes counted.now) }
{
    let mut edges = Vec::with_capacity(alloc, counted.len())?;
    for one in counted {
        add_changing(&mut edges, one)?;
    }
    Ok(edges)
}

/// One in so many edges is looked at to tell whether most change a parity.
const SAMPLE: usize = 64;

/// Whether so few edges change no parity that to leave them out isn't worth a list of the others, as a sample tells.
pub fn most_change(counted: &[Counted]) -> bool {
    let sample = counted.len().div_ceil(SAMPLE);
    let mut changing = 0;
    for number in 0..sample {
        if let Some(one) = counted.get(number.saturating_mul(SAMPLE)) {
            changing += is_odd_in_some(one) as usize;
        }
    }
    changing >= sample / 8 * 7
}

//! Bridging a strip's right border: the edges from it to later strips, and what is carried over its left border.

ghost use Rattle.std.specs.Prelude.{◌≡◌, ◌≢◌, ◌<◌, ◌+◌, ℕ, ℤ, AllPairs, Contains, IfOk, List, None, Some, count_by};
ghost use Rattle.std.specs.List.{AllZip};
ghost use Rattle.geom.specs.declared.point.Pt.{Pt};
ghost use Rattle.geom.specs.declared.edge.Counted.{Counted};
ghost use Rattle.geom.specs.declared.edge.Edge.{Edge};
ghost use Rattle.geom.specs.declared.segment.Source.{Source};
ghost use Rattle.geom.specs.Rounded.{joins};
ghost use Rattle.distinct.specs.Copies.{one_in};
ghost use Rattle.linking.specs.Links.{IsBetween, count_links};
ghost use Rattle.strips_law.specs.declared.line.Carried.{Carried};
ghost use Rattle.strips_law.specs.declared.line.Line.{Line};
ghost use Rattle.strips_law.specs.Strips.{AreAcross, AreCarried, AreOrdered, CarriesOn, IsRoundedStrip, steps_over};
ghost use Rattle.phases.specs.Bridged.{AreApart, ArePassing};

use distinct::Copies;
use geom::{Counted, Edge, NoMemory, Pt};
use linking::{Link, counts};
use std::alloc::Allocator;
use strips_law::{Carried, Open};

/// The rounded edges from a strip to later ones, ascending; and, by their numbers, the lines that cross its left border, each with its first hot
/// pixel behind that border.
#[derive(Drop)]
pub struct Bridged<A: Allocator> {
    pub across: Vec<Counted, A>,
    pub carried: Vec<Carried, A>,
}

/// The step of a line over a border: from the last pixel before it, where there is one in the strip, to the first one behind it.
fn link_over(line: Open, there: Carried) -> Option<Link>
    ensures none { line.near ≡ None → result ≡ None }
    ensures some { (p : Pt) → line.near ≡ Some p → p ≢ there.pixel → (edge : Edge) × IsBetween edge p there.pixel × (result ≡ Some (record { edge = edge; copies = one_in line.layer })) }
{
    let pixel = line.near?;
    let edge = Edge::between(pixel, there.pixel)?;
    Some(Link {
        edge,
        copies: Copies::one(line.layer),
    })
}

/// The steps of lines over a border.
fn links_over<A: Allocator>(
    alloc: A,
    right: &[Open],
    carried: &[Carried],
) -> Result<Vec<Link, A>, NoMemory>
    ensures { IfOk result (λ v. AreApart right.now carried.now → (e : Edge) (layer : Source) → count_links e layer v.items ≡ count_by (joins e) (steps_over layer right.now carried.now)) }
{
    let mut links = Vec::with_capacity(alloc, right.len())?;
    for i in 0..right.len().min(carried.len()) {
        let open = right[i];
        let there = carried[i];
        if let Some(link) = link_over(open, there) {
            links.push(link)?;
        }
    }
    Ok(links)
}

/// The pixel that is carried for the line of a number, where there is one.
fn carried_for(carried: &[Carried], number: u32) -> Option<Pt>
    ensures { AllPairs (λ c d. c.number < d.number) carried.now → (c : Carried) → Contains carried.now c → c.number ≡ number → result ≡ Some c.pixel }
{
    let place = carried.partition_point(|c| c.number < number);
    match carried.get(place) {
        Some(c) if c.number == number => Some(c.pixel),
        _ => None,
    }
}

/// What a line that crosses a strip's left border carries on: its first pixel in it, or what is carried over its right border where it has none.
fn carried_by(line: Open, carried: &[Carried]) -> Option<Pt>
    ensures near { (p : Pt) → line.near ≡ Some p → result ≡ Some p }
    ensures passing { line.near ≡ None → AllPairs (λ c d. c.number < d.number) carried.now → (c : Carried) → Contains carried.now c → c.number ≡ line.number → result ≡ Some c.pixel }
{
    match line.near {
        Some(pixel) => Some(pixel),
        None => carried_for(carried, line.number),
    }
}

/// What lines that cross a strip's left border carry on.
fn carried_on<A: Allocator>(
    alloc: A,
    left: &[Open],
    carried: &[Carried],
) -> Result<Vec<Carried, A>, NoMemory>
    ensures { IfOk result (λ v. ArePassing left.now carried.now → AllZip (CarriesOn carried.now) left.now v.items) }
{
    let mut list = Vec::with_capacity(alloc, left.len())?;
    for i in 0..left.len() {
        let open = left[i];
        if let Some(pixel) = carried_by(open, carried) {
            list.push(Carried {
                number: open.number,
                pixel,
            })?;
        }
    }
    Ok(list)
}

/// The edges that begin in a strip and end in a later one, and what is carried over its left border, from what is carried over its right
/// one. More edges than a `u32` counts are refused as want of memory.
pub fn bridge<A: Allocator + Copy>(
    alloc: A,
    left: &[Open],
    right: &[Open],
    carried: &[Carried],
) -> Result<Bridged<A>, NoMemory>
    ensures { IfOk result (λ b. (cuts : List ℤ) (strip : ℕ) (lines : List Line) (inner : List Counted) → AreOrdered lines → ∥ IsRoundedStrip cuts strip lines inner left.now right.now ∥₁ → ∥ AreCarried cuts (strip + 1) lines carried.now ∥₁
        → ∥ AreAcross cuts strip lines b.across.items × AreCarried cuts strip lines b.carried.items ∥₁) }
{
    let links = links_over(alloc, right, carried)?;
    if links.len() > u32::MAX as usize {
        return Err(NoMemory);
    }
    let across = counts(alloc, links)?;
    let carried = carried_on(alloc, left, carried)?;
    Ok(Bridged { across, carried })
}

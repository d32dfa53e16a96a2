//! The edges of links, each with where its features stand: runs of links of one edge, one after another; and the features that stand there.

ghost use Rattle.std.specs.Prelude.{◌≡◌, ◌≢◌, ◌+◌, ◌<◌, ◌≤◌, All, AllPairs, IfOk, length, map, slice_index_or};
ghost use Rattle.std.specs.List.{AllWithin};
ghost use Rattle.feature_links.specs.Groups.{AreGroups, bordered_by, feature_of, same_ends};
ghost use Rattle.feature_links.specs.Odd.{IsLinkBefore};
ghost use Rattle.feature_links.specs.declared.link.FeatureLink.{FeatureLink};

use crate::link::FeatureLink;
use cover_law::Border;
use geom::{Edge, NoMemory};
use std::alloc::Allocator;

fn is_edge(e: Edge, f: Edge) -> bool
    ensures { result ≡ same_ends e f }
{
    e.p == f.p && e.q == f.q
}

/// The number of the first link behind those of an edge that begin at a number.
fn end_of_run(links: &[FeatureLink], from: usize, edge: Edge) -> usize
    requires begins { from < length links.now }
    requires first { AllWithin (λ l. l.edge ≡ edge) links.now from (from + 1) }
    ensures after { from < result }
    ensures within { result ≤ length links.now }
    ensures run { AllWithin (λ l. l.edge ≡ edge) links.now from result }
    ensures past { (d : FeatureLink) → result < length links.now → (slice_index_or links.now result d).edge ≢ edge }
{
    let mut to = from + 1;
    while to < links.len() && is_edge(links[to].edge, edge) {
        to += 1;
    }
    to
}

/// The edges of ascending links, each with where its features stand.
pub fn borders_of<A: Allocator>(alloc: A, links: &[FeatureLink]) -> Result<Vec<Border, A>, NoMemory>
    requires { AllPairs IsLinkBefore links.now }
    ensures groups { IfOk result (λ list. AreGroups links.now (map (bordered_by links.now) list.items)) }
    ensures inside { IfOk result (λ list. All (λ b. (b.from ≤ b.to) × (b.to ≤ length links.now)) list.items) }
{
    let mut list = Vec::new(alloc);
    let mut from = 0;
    while from < links.len() {
        let edge = links[from].edge;
        let to = end_of_run(links, from, edge);
        list.push(Border { edge, from, to })?;
        from = to;
    }
    Ok(list)
}

/// The features of links, in their order.
pub fn features_of<A: Allocator>(alloc: A, links: &[FeatureLink]) -> Result<Vec<u32, A>, NoMemory>
    ensures { IfOk result (λ list. list.items ≡ map feature_of links.now) }
{
    let mut list = Vec::with_capacity(alloc, links.len())?;
    for link in links {
        list.push(link.feature)?;
    }
    Ok(list)
}

//! The links that occur an odd number of times: of each edge the features whose border it is. The links are taken in order; one that is
//! the last of those that were kept cancels it, and any other is kept.

ghost use Rattle.std.specs.Prelude.{◌≡◌, ◌↔◌, IfOk, IsTrue, OnOk};
ghost use Rattle.feature_links.specs.Odd.{AreInOrder, AreOdd, EndsIn, IsToggled, same_link};

use crate::link::FeatureLink;
use geom::NoMemory;
use std::alloc::Allocator;

fn is_same(l: FeatureLink, m: FeatureLink) -> bool
    ensures { result ≡ same_link l m }
{
    l.edge.p == m.edge.p && l.edge.q == m.edge.q && l.feature == m.feature
}

/// Whether the last of some links is this one.
fn ends_in(odd: &[FeatureLink], link: FeatureLink) -> bool
    ensures { IsTrue result ↔ EndsIn odd.now link }
{
    if odd.is_empty() {
        return false;
    }
    is_same(odd[odd.len() - 1], link)
}

/// Adds a link, or cancels it with the last one.
fn add_or_cancel<A: Allocator>(
    odd: &mut Vec<FeatureLink, A>,
    link: FeatureLink,
) -> Result<(), NoMemory>
    ensures { OnOk result (IsToggled odd.old.items link odd.new.items) }
{
    if ends_in(odd, link) {
        odd.pop();
        return Ok(());
    }
    odd.push(link)?;
    Ok(())
}

/// Of links in order those that occur an odd number of times, each once, in order.
pub fn odd_links<A: Allocator>(
    alloc: A,
    links: &[FeatureLink],
) -> Result<Vec<FeatureLink, A>, NoMemory>
    requires { AreInOrder links.now }
    ensures { IfOk result (λ odd. AreOdd links.now odd.items) }
{
    let mut odd = Vec::with_capacity(alloc, links.len())?;
    for link in links {
        add_or_cancel(&mut odd, *link)?;
    }
    Ok(odd)
}

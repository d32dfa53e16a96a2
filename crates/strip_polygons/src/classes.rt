//! Numbers in classes, by links between them: a forest in which each number is above no lesser one.
//!
//! 1. Each number is its own root (`alone`).
//! 2. A link puts the greater one of its ends' roots below the lesser one (`join`). Each step on the way to a root leaves out one of the numbers
//!    between, so that ways stay short (`root_of`).
//! 3. At last each number, from the least on, takes the root of the one above it (`roots_of`).

ghost use Rattle.std.specs.Prelude.{◌≡◌, ◌<◌, ℕ, IfOk, length, slice_index};
ghost use Rattle.std.specs.List.{range_with_len};
ghost use Rattle.strip_polygons.specs.Classes.{AreLinksBelow, AreRoots, IsForest, IsJoined, IsRoot};

use geom::NoMemory;
use std::alloc::Allocator;

/// Two numbers of one class.
#[derive(Clone, Copy, Debug)]
pub struct Link {
    pub first: usize,
    pub second: usize,
}

/// Numbers below a bound, each its own root.
fn alone<A: Allocator>(alloc: A, count: usize) -> Result<Vec<usize, A>, NoMemory>
    ensures { IfOk result (λ above. above.items ≡ range_with_len 0 count) }
{
    let mut above = Vec::with_capacity(alloc, count)?;
    for number in 0..count {
        above.push(number)?;
    }
    Ok(above)
}

/// The root of a number, whose way is about half as long from then on.
fn root_of(above: &mut [usize], number: usize) -> usize
    requires forest { IsForest above.old }
    requires inside { number < length above.old }
    ensures forest { IsForest above.new }
    ensures same_roots { (k r : ℕ) → IsRoot above.old k r → IsRoot above.new k r }
    ensures root { IsRoot above.old number result }
{
    let mut at = number;
    while above[at] != at {
        let next = above[above[at]];
        above[at] = next;
        at = next;
    }
    at
}

/// Makes one class of those of a link's ends.
fn join(above: &mut [usize], link: Link)
    requires forest { IsForest above.old }
    requires first_inside { link.first < length above.old }
    requires second_inside { link.second < length above.old }
    ensures forest { IsForest above.new }
    ensures joined { IsJoined above.old above.new link.first link.second }
{
    let first = root_of(above, link.first);
    let second = root_of(above, link.second);
    above[first.max(second)] = first.min(second);
}

/// The root of each number of a forest.
fn roots_of<A: Allocator>(above: Vec<usize, A>) -> Vec<usize, A>
    requires { IsForest above.items }
    ensures same_length { length result.items ≡ length above.items }
    ensures roots { (k : ℕ) → k < length above.items → IsRoot above.items k (slice_index result.items k) }
{
    let mut roots = above;
    for number in 0..roots.len() {
        roots[number] = roots[roots[number]];
    }
    roots
}

/// For each number below a bound the root of its class, so that just those to which links lead from one another have the same one.
pub fn classes_of<A: Allocator>(
    alloc: A,
    count: usize,
    links: &[Link],
) -> Result<Vec<usize, A>, NoMemory>
    requires { AreLinksBelow count links.now }
    ensures { IfOk result (λ roots. AreRoots count links.now roots.items) }
{
    let mut above = alone(alloc, count)?;
    for link in links {
        join(&mut above, *link);
    }
    Ok(roots_of(above))
}

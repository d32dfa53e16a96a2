//! The trees in the order in which they were made, and a table that finds them by their parts.

ghost use Rattle.std.specs.Prelude.{◌≡◌, ◌+◌, ◌<◌, ◌++◌, ◌∷◌, [], length, nat_eq, IfOk, OnErr, OnOk, Some};
ghost use Rattle.std.specs.HashMap.{IsUnchanged, Updates};
ghost use Rattle.cover_sets.specs.Key.{key_of};

use crate::tree::Tree;
use geom::NoMemory;
use std::alloc::Allocator;
use std::collections::HashMap;
use std::hash::{BuildHasherDefault, FoldHasher};

/// The numbers of trees by their parts.
pub type Table<A> = HashMap<u64, u32, BuildHasherDefault<FoldHasher>, A>;

/// Both parts as one number.
pub fn key_of(low: u32, high: u32) -> u64
    ensures { result ≡ key_of low high }
{
    (low as u64) * 0x1_0000_0000 + high as u64
}

/// Adds a tree under the key of its parts, and gives its number.
pub fn add<A: Allocator + Copy>(
    trees: &mut Vec<Tree, A>,
    table: &mut Table<A>,
    tree: Tree,
) -> Result<u32, NoMemory>
    requires few { length trees.old.items < 2147483648 }
    ensures number { IfOk result (λ n. n ≡ length trees.old.items) }
    ensures trees { OnOk result (trees.new.items ≡ trees.old.items ++ tree ∷ []) }
    ensures table { OnOk result (Updates nat_eq table.old table.new (key_of tree.low tree.high) (Some (length trees.old.items))) }
    ensures same_trees { OnErr result (trees.new.items ≡ trees.old.items) }
    ensures same_table { OnErr result (IsUnchanged table.old table.new) }
{
    let number = trees.len() as u32;
    trees.push(tree)?;
    if table.insert(key_of(tree.low, tree.high), number).is_err() {
        trees.pop();
        return Err(NoMemory);
    }
    Ok(number)
}

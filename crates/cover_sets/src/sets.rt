//! A set of features is a number: `EMPTY`; a feature alone, with the top bit; or the number of a tree. A tree has two parts, which are
//! sets, and splits at the highest bit in which its features differ. So a set has one tree. No tree is made twice, since a table finds
//! it by its parts: equal sets have equal numbers.
//!
//! 1. A list of features becomes a set by halves (`of`).
//! 2. What lies beyond an edge is found part by part, by halves of the list of its features; parts that don't change are shared (`beyond`).

ghost use Rattle.std.specs.Prelude.{◌≡◌, ◌≢◌, ◌+◌, ◌*◌, ◌/◌, ◌^◌, ◌<◌, ◌≤◌, ◌++◌, ◌∷◌, ℕ, true, false, List, [], All, AllPairs, Contains, IfOk, IfSome, MatchOption, OnOk, length};
ghost use Rattle.cover_sets.specs.Ends.{IsGreatest, IsLeast};
ghost use Rattle.cover_sets.specs.Sets.{AreSets, IsBeyond, IsListed, IsNumber, Keeps, set_of};
ghost use Rattle.cover_sets.specs.Blocks.{AreInBlock, InBlock, IsInBlock, Splits};
ghost use Rattle.cover_sets.specs.Exchange.{IsExchanged};
ghost use Rattle.cover_sets.specs.Trees.{IsTree};

use crate::halves::{common_levels, few_of, halves, list_levels};
use crate::table::{Table, add, key_of};
use crate::tree::{ALONE, EMPTY, Head, Tree};
use geom::NoMemory;
use std::alloc::Allocator;
use std::collections::HashMap;
use std::marker::Model;

/// Features agree above so many bits, whichever they are.
const BITS: u32 = 31;

/// Sets of features below 2^31 - 1, by their numbers. In contracts they are the lists of those sets that have a tree.
#[derive(Drop)]
pub struct Sets<A: Allocator> {
    trees: Vec<Tree, A>,
    table: Table<A>,
}

impl<A: Allocator> Model for Sets<A> {
    ghost use Rattle.std.specs.Prelude.{List, ℕ, nat_eq};
    ghost use Rattle.std.specs.HashMap.{get};

    ghost Value = { List (List ℕ) };

    ghost use Rattle.cover_sets.specs.Trees.{AreTrees, sets_of};

    ghost view = { λ s. sets_of s.trees.items };

    ghost invariant = { λ s. AreTrees s.trees.items (get nat_eq s.table) };
}

impl<A: Allocator + Copy> Sets<A> {
    /// No trees.
    pub fn new(alloc: A) -> Sets<A>
        ensures { result ≡ [] }
    {
        Sets {
            trees: Vec::new(alloc),
            table: HashMap::new(alloc),
        }
    }

    /// The set of ascending features.
    pub fn of(&mut self, features: &[u32]) -> Result<u32, NoMemory>
        requires ascending { AllPairs (λ f g. f < g) features.now }
        requires below { All (λ f. f < 2147483647) features.now }
        ensures keeps { Keeps self.old self.new }
        ensures sets { AreSets self.new }
        ensures set { IfOk result (IsListed self.new features.now) }
    {
        self.of_part(features, BITS)
    }

    /// The features either of the set or of the ascending list, and not of both: the set beyond an edge that is the border of those listed.
    pub fn beyond(&mut self, set: u32, features: &[u32]) -> Result<u32, NoMemory>
        requires set { IsNumber self.old set }
        requires ascending { AllPairs (λ f g. f < g) features.now }
        requires below { All (λ f. f < 2147483647) features.now }
        ensures keeps { Keeps self.old self.new }
        ensures sets { AreSets self.new }
        ensures beyond { IfOk result (IsBeyond self.old set features.now self.new) }
    {
        let _trees = &self.trees;
        self.exchanged(set, features, BITS)
    }

    /// How many features the set has.
    pub fn size(&self, set: u32) -> u64
        requires { IsNumber self.now set }
        ensures { result ≡ length (set_of self.now set) }
    {
        self.len(set) as u64
    }

    /// Writes the features of the set, ascending, behind those of the list.
    pub fn push_features<B: Allocator>(
        &self,
        set: u32,
        out: &mut Vec<u32, B>,
    ) -> Result<(), NoMemory>
        requires { IsNumber self.now set }
        ensures { OnOk result (out.new.items ≡ out.old.items ++ set_of self.now set) }
    {
        if set == EMPTY {
            return Ok(());
        }
        if set >= ALONE {
            out.push(set - ALONE)?;
            return Ok(());
        }
        let tree = self.tree_at(set);
        self.push_features(tree.low, out)?;
        self.push_features(tree.high, out)
    }

    /// The least feature of the set, if it has one: that of the low part of its tree, in at most 31 steps.
    pub fn least(&self, set: u32) -> Option<u32>
        requires { IsNumber self.now set }
        ensures { MatchOption result (set_of self.now set ≡ []) (IsLeast (set_of self.now set)) }
    {
        let _trees = &self.trees;
        if set == EMPTY {
            return None;
        }
        let mut part = set;
        while part < ALONE {
            part = self.tree_at(part).low;
        }
        Some(part - ALONE)
    }

    /// The greatest feature of the set, if it has one: that of the high part of its tree, in at most 31 steps.
    pub fn greatest(&self, set: u32) -> Option<u32>
        requires { IsNumber self.now set }
        ensures { MatchOption result (set_of self.now set ≡ []) (IsGreatest (set_of self.now set)) }
    {
        let _trees = &self.trees;
        if set == EMPTY {
            return None;
        }
        let mut part = set;
        while part < ALONE {
            part = self.tree_at(part).high;
        }
        Some(part - ALONE)
    }

    fn len(&self, set: u32) -> u32
        requires { IsNumber self.now set }
        ensures { result ≡ length (set_of self.now set) }
    {
        if set == EMPTY {
            return 0;
        }
        if set >= ALONE {
            return 1;
        }
        self.tree_at(set).size
    }

    /// The tree of a number without the top bit.
    fn tree_at(&self, set: u32) -> Tree
        requires known { IsNumber self.now set }
        requires tree { set < 2147483648 }
        ensures { IsTree self.now set result }
    {
        let trees: &[Tree] = &self.trees;
        trees[set as usize]
    }

    fn head(&self, set: u32) -> Head
        requires known { IsNumber self.now set }
        requires some { set < 4294967295 }
        ensures member { Contains (set_of self.now set) result.member }
        ensures block { InBlock result.levels (result.member / 2 ^ result.levels) (set_of self.now set) }
        ensures least { (levels : ℕ) → IsInBlock levels (set_of self.now set) → result.levels ≤ levels }
        ensures alone { result.levels ≡ 0 → set ≡ 2147483648 + result.member }
        ensures tree { 0 < result.levels → set < 2147483648 }
    {
        if set >= ALONE {
            return Head {
                member: set - ALONE,
                levels: 0,
            };
        }
        let tree = self.tree_at(set);
        Head {
            member: tree.member,
            levels: tree.levels,
        }
    }

    /// The features of the set whose bit `level` is 0, and those where it is 1. All agree above it.
    fn parts(&self, set: u32, level: u32) -> (u32, u32)
        requires known { IsNumber self.now set }
        requires some { set < 4294967295 }
        requires level { level < 31 }
        requires block { IsInBlock (level + 1) (set_of self.now set) }
        ensures low { IsNumber self.now result.0 }
        ensures high { IsNumber self.now result.1 }
        ensures both { set_of self.now result.0 ++ set_of self.now result.1 ≡ set_of self.now set }
        ensures low_block { (p : ℕ) → InBlock (level + 1) p (set_of self.now set) → InBlock level (2 * p) (set_of self.now result.0) }
        ensures high_block { (p : ℕ) → InBlock (level + 1) p (set_of self.now set) → InBlock level (2 * p + 1) (set_of self.now result.1) }
    {
        let head = self.head(set);
        if head.levels > level {
            let tree = self.tree_at(set);
            return (tree.low, tree.high);
        }
        if (head.member >> level) % 2 == 0 {
            (set, EMPTY)
        } else {
            (EMPTY, set)
        }
    }

    /// The least number of bits above which all features of the set and of the list agree.
    fn shared_levels(&self, set: u32, features: &[u32], most: u32) -> u32
        requires set { IsNumber self.now set }
        requires some_set { set < 4294967295 }
        requires some { 0 < length features.now }
        requires apart { (f : ℕ) → features.now ≡ f ∷ [] → set ≢ 2147483648 + f }
        requires ascending { AllPairs (λ f g. f < g) features.now }
        requires most { most ≤ 31 }
        requires block { AreInBlock most (set_of self.now set) features.now }
        ensures some { 0 < result }
        ensures within { result ≤ most }
        ensures block { AreInBlock result (set_of self.now set) features.now }
    {
        let head = self.head(set);
        let first = features[0];
        let last = features[features.len() - 1];
        let own = common_levels(first, last, head.levels, most);
        common_levels(first, head.member, own, most)
    }

    /// The set of both parts, which differ in the highest of the `levels` bits above which all agree.
    fn joined(&mut self, low: u32, high: u32, levels: u32) -> Result<u32, NoMemory>
        requires low { IsNumber self.old low }
        requires high { IsNumber self.old high }
        requires levels { levels ≤ 31 }
        requires splits { Splits levels (set_of self.old low) (set_of self.old high) }
        ensures keeps { Keeps self.old self.new }
        ensures sets { AreSets self.new }
        ensures set { IfOk result (IsListed self.new (set_of self.old low ++ set_of self.old high)) }
    {
        if low == EMPTY {
            let _trees = &self.trees;
            return Ok(high);
        }
        if high == EMPTY {
            let _trees = &self.trees;
            return Ok(low);
        }
        self.tree(low, high, levels)
    }

    /// The same of two parts that both have features.
    fn tree(&mut self, low: u32, high: u32, levels: u32) -> Result<u32, NoMemory>
        requires low { IsNumber self.old low }
        requires high { IsNumber self.old high }
        requires some_low { low < 4294967295 }
        requires some_high { high < 4294967295 }
        requires levels { levels ≤ 31 }
        requires splits { Splits levels (set_of self.old low) (set_of self.old high) }
        ensures keeps { Keeps self.old self.new }
        ensures sets { AreSets self.new }
        ensures set { IfOk result (IsListed self.new (set_of self.old low ++ set_of self.old high)) }
    {
        match self.table.get(&key_of(low, high)) {
            Some(number) => return Ok(*number),
            None => {}
        }
        if self.trees.len() >= ALONE as usize {
            return Err(NoMemory);
        }
        let member = self.head(low).member;
        let size = self.len(low) + self.len(high);
        let tree = Tree {
            low,
            high,
            levels,
            member,
            size,
        };
        let number = add(&mut self.trees, &mut self.table, tree)?;
        Ok(number)
    }

    /// The set of ascending features that agree above `most` bits.
    fn of_part(&mut self, features: &[u32], most: u32) -> Result<u32, NoMemory>
        requires ascending { AllPairs (λ f g. f < g) features.now }
        requires below { All (λ f. f < 2147483647) features.now }
        requires most { most ≤ 31 }
        requires block { IsInBlock most features.now }
        ensures keeps { Keeps self.old self.new }
        ensures sets { AreSets self.new }
        ensures set { IfOk result (IsListed self.new features.now) }
    {
        if features.len() < 2 {
            let _trees = &self.trees;
            return Ok(few_of(features));
        }
        let level = list_levels(features, most) - 1;
        let (front, back) = halves(features, level);
        let low = self.of_part(front, level)?;
        let high = self.of_part(back, level)?;
        self.joined(low, high, level + 1)
    }

    /// Whether the set is that of a list of one feature.
    fn is_alone(set: u32, features: &[u32]) -> bool
        requires { All (λ f. f < 2147483647) features.now }
        ensures alone { result ≡ true → (f : ℕ) × (features.now ≡ f ∷ []) × (set ≡ 2147483648 + f) }
        ensures apart { result ≡ false → (f : ℕ) → features.now ≡ f ∷ [] → set ≢ 2147483648 + f }
    {
        features.len() == 1 && set == ALONE + features[0]
    }

    /// The other one of two features, where the set is that of one of them alone.
    fn other_of(set: u32, features: &[u32]) -> Option<u32>
        requires ascending { AllPairs (λ f g. f < g) features.now }
        requires below { All (λ f. f < 2147483647) features.now }
        ensures { IfSome result (λ other. (sets : List (List ℕ)) → IsExchanged sets set features.now sets other) }
    {
        if features.len() != 2 {
            return None;
        }
        if set == ALONE + features[0] {
            return Some(ALONE + features[1]);
        }
        if set == ALONE + features[1] {
            return Some(ALONE + features[0]);
        }
        None
    }

    /// The features either of the set or of the list, and not of both, where all agree above `most` bits.
    fn exchanged(&mut self, set: u32, features: &[u32], most: u32) -> Result<u32, NoMemory>
        requires set { IsNumber self.old set }
        requires ascending { AllPairs (λ f g. f < g) features.now }
        requires below { All (λ f. f < 2147483647) features.now }
        requires most { most ≤ 31 }
        requires block { AreInBlock most (set_of self.old set) features.now }
        ensures keeps { Keeps self.old self.new }
        ensures sets { AreSets self.new }
        ensures set { IfOk result (IsExchanged self.old set features.now self.new) }
    {
        if features.is_empty() {
            let _trees = &self.trees;
            return Ok(set);
        }
        if set == EMPTY {
            return self.of_part(features, most);
        }
        if Sets::<A>::is_alone(set, features) {
            let _trees = &self.trees;
            return Ok(EMPTY);
        }
        if let Some(other) = Sets::<A>::other_of(set, features) {
            let _trees = &self.trees;
            return Ok(other);
        }
        let level = self.shared_levels(set, features, most) - 1;
        let (low, high) = self.parts(set, level);
        let (front, back) = halves(features, level);
        let low = self.exchanged(low, front, level)?;
        let high = self.exchanged(high, back, level)?;
        self.joined(low, high, level + 1)
    }
}

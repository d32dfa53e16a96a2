//! Ascending features in halves: those whose highest bit that differs is 0, and those where it is 1.

ghost use Rattle.std.specs.Prelude.{◌≡◌, ◌+◌, ◌*◌, ◌/◌, ◌^◌, ◌<◌, ◌≤◌, ◌++◌, ℕ, List, All, AllPairs, length};
ghost use Rattle.cover_sets.specs.Sets.{IsListed};
ghost use Rattle.cover_sets.specs.Blocks.{InBlock, IsInBlock};

use crate::tree::{ALONE, EMPTY};

/// The set of one feature, or of none.
pub fn few_of(features: &[u32]) -> u32
    requires few { length features.now < 2 }
    requires below { All (λ f. f < 2147483647) features.now }
    ensures { (sets : List (List ℕ)) → IsListed sets features.now result }
{
    if features.is_empty() {
        return EMPTY;
    }
    ALONE + features[0]
}

/// The least number of bits, from `least` on, above which both agree: those up to the highest bit in which they differ.
pub fn common_levels(f: u32, g: u32, least: u32, most: u32) -> u32
    requires least { least ≤ most }
    requires most { most ≤ 31 }
    requires common { f / 2 ^ most ≡ g / 2 ^ most }
    ensures least { least ≤ result }
    ensures most { result ≤ most }
    ensures common { f / 2 ^ result ≡ g / 2 ^ result }
{
    let apart = u32::BITS - (f ^ g).leading_zeros();
    let mut levels = apart.clamp(least, most);
    while f >> levels != g >> levels {
        levels += 1;
    }
    levels
}

/// The least number of bits above which all features of a list of two and more agree.
pub fn list_levels(features: &[u32], most: u32) -> u32
    requires many { 2 ≤ length features.now }
    requires ascending { AllPairs (λ f g. f < g) features.now }
    requires most { most ≤ 31 }
    requires block { IsInBlock most features.now }
    ensures some { 0 < result }
    ensures within { result ≤ most }
    ensures block { IsInBlock result features.now }
{
    common_levels(features[0], features[features.len() - 1], 0, most)
}

/// The features whose bit `level` is 0, and those where it is 1. All agree above it.
pub fn halves(features: &[u32], level: u32) -> (&[u32], &[u32])
    requires ascending { AllPairs (λ f g. f < g) features.now }
    requires level { level < 31 }
    requires block { IsInBlock (level + 1) features.now }
    ensures both { result.0.now ++ result.1.now ≡ features.now }
    ensures low { (p : ℕ) → InBlock (level + 1) p features.now → InBlock level (2 * p) result.0.now }
    ensures high { (p : ℕ) → InBlock (level + 1) p features.now → InBlock level (2 * p + 1) result.1.now }
{
    let middle = features.partition_point(|f| (*f >> level) % 2 == 0);
    features.split_at(middle)
}

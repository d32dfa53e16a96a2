//! Operations on pairs of features of two layers that are columns, on the calling thread alone.
//!
//! 1. Both layers are surveyed, and have as many features as one another (`check_pairs`): only here is an input refused.
//! 2. The segments of each pair are rounded, over one tile, and give polygons (`pair_polygons`).
//! 3. The polygons of all pairs give columns, with an offset behind each pair (`pairs_by_one`).

ghost use Rattle.std.specs.Prelude.{◌≡◌, ◌<◌, ◌++◌, ◌∷◌, [], ℕ, IfOk, List, MatchResult, OnOk, get_or, length};
ghost use Rattle.geom.specs.Canonical.{Shape};
ghost use Rattle.geom.specs.Segments.{AreSegments};
ghost use Rattle.columns.specs.Layout.{feature_rings_in, plain};
ghost use Rattle.linking.specs.Gathered.{HaveTiles};
ghost use Rattle.engine.specs.ColumnsPairs.{ArePairsMade, ArePairsRefused, DeclinesPairs, HaveResults, IsResultOfRings, MayRunPairs};
ghost use Rattle.layers.specs.ColumnsRefusals.{AreBothAccepted};
ghost use Rattle.layers.specs.Segments.{AllInLimit};

use crate::alone::gathered_alone;
use crate::cells::extent_of;
use columns::{Columns, OwnedColumns, columns_of, feature_count, push_feature, survey};
use geom::{Fault, NoMemory, Op, Polygon, Pt, Rect, Seg, Source};
use grid::Grid;
use layers::{ColumnsRefused, Limits, check_total};
use results::result_polygons;
use std::alloc::Allocator;

/// The results of an operation on pairs of features, as columns: a feature for each pair.
#[derive(Drop)]
pub struct PairsOutput<A: Allocator> {
    pub columns: OwnedColumns<A>,
    /// Where each pair's result begins among the polygons, and where the last one ends.
    pub features: Vec<u32, A>,
}

/// Why an operation on pairs of features is refused.
#[derive(Clone, Copy, Debug, PartialEq, Eq)]
pub enum PairsRefused {
    /// As an operation on the two layers is.
    Layers(ColumnsRefused),
    /// One layer has more features than the other; the number of the first one without another, from 0 on.
    Unpaired(usize),
}

/// The result of an operation on each feature of a layer and the feature with the same number of another one, as columns of the polygons
/// of all results. It is refused for the first of these: layer A, layer B, different numbers of features, more segments than the limit;
/// then for want of memory.
pub fn run_pairs_alone_within<A: Allocator + Copy>(
    alloc: A,
    op: Op,
    a: &Columns<'_>,
    b: &Columns<'_>,
    limits: Limits,
) -> Result<PairsOutput<A>, PairsRefused>
    ensures { MatchResult result (ArePairsMade limits.segments op a.now b.now) (DeclinesPairs limits.segments a.now b.now) }
{
    match check_pairs(a, b, limits) {
        Ok(()) => pairs_or_refused(pairs_by_one(alloc, op, a, b)),
        Err(refused) => Err(refused),
    }
}

/// Whether nothing is refused.
fn check_pairs(a: &Columns<'_>, b: &Columns<'_>, limits: Limits) -> Result<(), PairsRefused>
    ensures { MatchResult result (λ _. MayRunPairs limits.segments a.now b.now) (λ f. ArePairsRefused limits.segments a.now b.now f) }
{
    let first = match survey(a) {
        Ok(outline) => outline,
        Err(fault) => return Err(PairsRefused::Layers(ColumnsRefused::A(fault))),
    };
    let second = match survey(b) {
        Ok(outline) => outline,
        Err(fault) => return Err(PairsRefused::Layers(ColumnsRefused::B(fault))),
    };
    let (ours, theirs) = (feature_count(a), feature_count(b));
    if ours != theirs {
        return Err(PairsRefused::Unpaired(ours.min(theirs)));
    }
    match check_total(first.segments, second.segments, limits.segments) {
        Ok(()) => Ok(()),
        Err(fault) => Err(PairsRefused::Layers(ColumnsRefused::Run(fault.fault))),
    }
}

/// What was made, or that the run wants memory.
fn pairs_or_refused<M>(made: Result<M, NoMemory>) -> Result<M, PairsRefused>
    ensures { MatchResult result (λ m. made ≡ Ok m) (λ f. f ≡ PairsRefused.Layers (ColumnsRefused.Run Fault.Memory)) }
{
    match made {
        Ok(made) => Ok(made),
        Err(_) => Err(PairsRefused::Layers(ColumnsRefused::Run(Fault::Memory))),
    }
}

/// The results of pairs so far: all polygons, and where those of each pair begin, and the last ones end.
#[derive(Drop)]
pub(crate) struct PairResults<A: Allocator> {
    polygons: Vec<Polygon<A>, A>,
    features: Vec<u32, A>,
}

impl<A: Allocator + Copy> PairResults<A> {
    /// Those of no pairs.
    fn new(alloc: A) -> Result<PairResults<A>, NoMemory>
        ensures { IfOk result (λ r. HaveResults [] r) }
    {
        let mut features = Vec::new(alloc);
        features.push(0)?;
        Ok(PairResults {
            polygons: Vec::new(alloc),
            features,
        })
    }

    /// Adds the result of the next pair.
    fn push(&mut self, mut polygons: Vec<Polygon<A>, A>) -> Result<(), NoMemory>
        ensures { (results : List (List Shape)) → HaveResults results self.old → OnOk result (HaveResults (results ++ polygons.items ∷ []) self.new) }
    {
        self.polygons.append(&mut polygons)?;
        let past = self.polygons.len();
        self.features
            .push(u32::try_from(past).map_err(|_| NoMemory)?)?;
        Ok(())
    }
}

/// The results of all pairs of two layers with as many features.
fn pairs_by_one<A: Allocator + Copy>(
    alloc: A,
    op: Op,
    a: &Columns<'_>,
    b: &Columns<'_>,
) -> Result<PairsOutput<A>, NoMemory>
    requires accepted { AreBothAccepted a.now b.now }
    requires paired { length (feature_rings_in a.now) ≡ length (feature_rings_in b.now) }
    ensures { (limit : ℕ) → MayRunPairs limit a.now b.now → IfOk result (ArePairsMade limit op a.now b.now) }
{
    let mut results = PairResults::new(alloc)?;
    for feature in 0..feature_count(a) {
        let polygons = pair_polygons(alloc, op, a, b, feature)?;
        results.push(polygons)?;
    }
    let PairResults { polygons, features } = results;
    let columns = columns_of(alloc, &polygons)?;
    Ok(PairsOutput { columns, features })
}

/// The polygons of the result on the features with this number.
fn pair_polygons<A: Allocator + Copy>(
    alloc: A,
    op: Op,
    a: &Columns<'_>,
    b: &Columns<'_>,
    feature: usize,
) -> Result<Vec<Polygon<A>, A>, NoMemory>
    requires accepted { AreBothAccepted a.now b.now }
    requires first { feature < length (feature_rings_in a.now) }
    requires second { feature < length (feature_rings_in b.now) }
    ensures { IfOk result (λ p. IsResultOfRings op (plain (get_or (feature_rings_in a.now) feature [])) (plain (get_or (feature_rings_in b.now) feature [])) p.items) }
{
    let segments = pair_segments(alloc, a, b, feature)?;
    let grid = one_tile_over(&segments);
    let noded = gathered_alone(alloc, &grid, segments)?;
    result_polygons(alloc, &noded.edges, op)
}

/// The segments of the features with this number, those of the first layer's first.
fn pair_segments<A: Allocator>(
    alloc: A,
    a: &Columns<'_>,
    b: &Columns<'_>,
    feature: usize,
) -> Result<Vec<Seg, A>, NoMemory>
    requires accepted { AreBothAccepted a.now b.now }
    requires first { feature < length (feature_rings_in a.now) }
    requires second { feature < length (feature_rings_in b.now) }
    ensures segments { IfOk result (λ v. AreSegments (plain (get_or (feature_rings_in a.now) feature [])) (plain (get_or (feature_rings_in b.now) feature [])) v.items) }
    ensures in_limit { IfOk result (λ v. AllInLimit v.items) }
{
    let mut segments = Vec::new(alloc);
    push_feature(&mut segments, a, feature, Source::A)?;
    push_feature(&mut segments, b, feature, Source::B)?;
    Ok(segments)
}

/// A grid of one tile over segments.
fn one_tile_over(segments: &[Seg]) -> Grid
    requires { AllInLimit segments.now }
    ensures { HaveTiles result segments.now }
{
    let origin = Pt { x: 0, y: 0 };
    match extent_of(segments).bounds {
        Some(bounds) => Grid::one_tile(bounds),
        None => Grid::one_tile(Rect::spanned_by(origin, origin)),
    }
}

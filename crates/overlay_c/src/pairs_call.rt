//! The call on pairs of features that C sees.

ghost use Rattle.std.specs.Prelude.{◌≡◌, MatchResult};
ghost use Rattle.overlay_c.specs.Columns.{columns_in, op_from};
ghost use Rattle.overlay_c.specs.Pairs.{ArePairsKept, ArePairsPutOrSmall, FailsPairs, FillsPairs, IsPairsResult, pair_lists_of, pairs_answer};

use crate::answer::{ANSWERED, SMALL};
use crate::columns_answer::{
    OverlayColumnsAnswer, answer_of_columns, lengths_of, no_such_call, told,
};
use crate::columns_layer::{OverlayColumns, columns_from, op_of};
use crate::columns_rooms::{put, put_columns};
use engine::{Limits, PairsOutput, PairsRefused, run_pairs_alone_within};
use std::alloc::Global;

/// The number of a refusal for features without another.
const UNPAIRED: u8 = 17;

/// Puts the columns of the results of an operation (0 union, 1 intersection, 2 difference, 3 symmetric difference) on each feature of a
/// layer and the one with the same number of another layer at the beginning of four rooms, a feature for each pair, where all of them fit;
/// the layers have together at most so many segments. Nothing else in the rooms changes.
#[unsafe(no_mangle)]
pub extern "C" fn overlay_pairs_fill(
    alloc: Global,
    call: u32,
    segments: u32,
    a: &OverlayColumns,
    b: &OverlayColumns,
    coordinates: &mut [i32],
    rings: &mut [u32],
    polygons: &mut [u32],
    features: &mut [u32],
    answer: &mut OverlayColumnsAnswer,
)
    ensures { FillsPairs segments call (columns_in a.now) (columns_in b.now) (record { lists = record { coordinates = coordinates.old; rings = rings.old; polygons = polygons.old }; features = features.old }) (record { lists = record { coordinates = coordinates.new; rings = rings.new; polygons = polygons.new }; features = features.new }) answer.new }
{
    let made = pairs_result(alloc, call, Limits { segments }, a, b);
    *answer = fill_pairs(made, coordinates, rings, polygons, features);
}

/// The columns of the results within a limit of segments, or the answer where there are none.
fn pairs_result(
    alloc: Global,
    call: u32,
    limits: Limits,
    a: &OverlayColumns<'_>,
    b: &OverlayColumns<'_>,
) -> Result<PairsOutput<Global>, OverlayColumnsAnswer>
    ensures { MatchResult result (λ m. IsPairsResult limits.segments call (columns_in a.now) (columns_in b.now) (pair_lists_of m)) (λ answer. FailsPairs limits.segments call (columns_in a.now) (columns_in b.now) answer) }
{
    let Some(op) = op_of(call) else {
        return Err(no_such_call());
    };
    match run_pairs_alone_within(alloc, op, &columns_from(a), &columns_from(b), limits) {
        Ok(made) => Ok(made),
        Err(refused) => Err(answer_of_pairs(refused)),
    }
}

/// The answer of a refusal.
fn answer_of_pairs(refused: PairsRefused) -> OverlayColumnsAnswer
    ensures { result ≡ pairs_answer refused }
{
    match refused {
        PairsRefused::Layers(refused) => answer_of_columns(refused),
        PairsRefused::Unpaired(feature) => told(3, UNPAIRED, 2, feature as u64),
    }
}

/// Puts columns that were made at the beginning of four rooms, where all of them fit.
fn fill_pairs(
    made: Result<PairsOutput<Global>, OverlayColumnsAnswer>,
    coordinates: &mut [i32],
    rings: &mut [u32],
    polygons: &mut [u32],
    features: &mut [u32],
) -> OverlayColumnsAnswer
    ensures put { MatchResult made (λ m. ArePairsPutOrSmall (pair_lists_of m) (record { lists = record { coordinates = coordinates.old; rings = rings.old; polygons = polygons.old }; features = features.old }) (record { lists = record { coordinates = coordinates.new; rings = rings.new; polygons = polygons.new }; features = features.new }) result) (λ told. (result ≡ told) × ArePairsKept (record { lists = record { coordinates = coordinates.old; rings = rings.old; polygons = polygons.old }; features = features.old }) (record { lists = record { coordinates = coordinates.new; rings = rings.new; polygons = polygons.new }; features = features.new })) }
{
    match made {
        Ok(pairs) => put_pairs(&pairs, coordinates, rings, polygons, features),
        Err(told) => told,
    }
}

/// Puts columns at the beginning of four rooms, where all of them fit.
fn put_pairs(
    pairs: &PairsOutput<Global>,
    coordinates: &mut [i32],
    rings: &mut [u32],
    polygons: &mut [u32],
    features: &mut [u32],
) -> OverlayColumnsAnswer
    ensures { ArePairsPutOrSmall (pair_lists_of pairs.now) (record { lists = record { coordinates = coordinates.old; rings = rings.old; polygons = polygons.old }; features = features.old }) (record { lists = record { coordinates = coordinates.new; rings = rings.new; polygons = polygons.new }; features = features.new }) result }
{
    if features.len() < pairs.features.len() {
        return lengths_of(SMALL, &pairs.columns);
    }
    let answer = put_columns(&pairs.columns, coordinates, rings, polygons);
    if answer.status != ANSWERED {
        return answer;
    }
    put(&pairs.features, features);
    answer
}

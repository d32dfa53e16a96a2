//! The texts of layers, read into their features.
//!
//! 1. Each text is checked and read in one pass, in parts where it is long; the first one that is refused ends it (`read_layers`).
//! 2. Of all layers together the segments are counted and boxed; their features are kept while there is room (`ReadLayers`).
//! 3. What wasn't kept is read anew once nothing can be refused (`features_of`).

ghost use Rattle.std.specs.Prelude.{◌≡◌, ◌+◌, ◌*◌, ◌≤◌, [], ◌∷◌, ◌++◌, ℕ, IfOk, IfSome, List, MatchResult, Ok, length, map};
ghost use Rattle.wkt.specs.Features.{StandsForFeatures};
ghost use Rattle.layers.specs.FeatureLayers.{AreFeaturesInLimit, AreReadLayers, HaveKept, IsFeatureReading, TellsBadLayer};
ghost use Rattle.layers.specs.Refusals.{text_limit};

use crate::checking::joint_bounds;
use crate::faces_fault::{FacesFault, FacesPart, FacesRefusal};
use crate::faces_limits::FacesLimits;
use crate::plan::text_limit;
use geom::{Fault, NoMemory, Rect};
use hands::worth;
use std::alloc::Allocator;
use std::thread::Threads;
use wkt::{
    FeatureLayer, OutlinedFeatures, read_features_within, read_outlined_features,
    read_outlined_features_in_parts,
};

/// The most layers that there may be.
pub const MOST_LAYERS: usize = 64;

/// What was read of a layer text: its outline, with its features where there was room for them, or why it is refused.
pub type FeatureReading<A> = Result<OutlinedFeatures<A>, Fault>;

/// The features of each layer where they were read with its outline, while there is room for the list.
pub type KeptFeatures<A> = Option<Vec<Option<FeatureLayer<A>>, A>>;

/// Layers that are accepted: how many segments they have together, the box of these, and their features where they were kept.
#[derive(Drop)]
pub struct ReadLayers<A: Allocator> {
    pub segments: u64,
    pub bounds: Option<Rect>,
    pub kept: KeptFeatures<A>,
}

impl<A: Allocator> ReadLayers<A> {
    /// No layers.
    fn none(alloc: A) -> ReadLayers<A>
        ensures read { (limit : ℕ) → AreReadLayers limit [] result }
        ensures none { result.segments ≡ 0 }
    {
        ReadLayers {
            segments: 0,
            bounds: None,
            kept: Some(Vec::new(alloc)),
        }
    }

    /// These and one more.
    fn and(self, next: OutlinedFeatures<A>) -> ReadLayers<A>
        requires { self.segments ≤ 64 * u32.MAX }
        ensures read { (texts : List (List ℕ)) (text : List ℕ) (limit : ℕ) → AreReadLayers limit texts self → IsFeatureReading limit text (Ok next) → AreReadLayers limit (texts ++ text ∷ []) result }
        ensures few { result.segments ≤ self.segments + u32.MAX }
    {
        let ReadLayers {
            segments,
            bounds,
            kept,
        } = self;
        let OutlinedFeatures { outline, features } = next;
        ReadLayers {
            segments: segments + u64::from(outline.segments),
            bounds: joint_bounds(bounds, outline.bounds),
            kept: kept_with(kept, features),
        }
    }
}

/// The features of one more layer behind those that are kept, where there is room for them.
fn kept_with<A: Allocator>(
    kept: KeptFeatures<A>,
    features: Option<FeatureLayer<A>>,
) -> KeptFeatures<A>
    ensures { (texts : List (List ℕ)) (text : List ℕ) → HaveKept texts kept → IfSome features (λ f. StandsForFeatures text f × AreFeaturesInLimit f) → HaveKept (texts ++ text ∷ []) result }
{
    let mut list = kept?;
    match list.push(features) {
        Ok(()) => Some(list),
        Err(_) => None,
    }
}

/// Layers that are accepted within limits, or the first one that is refused.
pub fn read_layers_alone<A: Allocator + Copy>(
    alloc: A,
    limits: FacesLimits,
    layers: &[&[u8]],
) -> Result<ReadLayers<A>, FacesFault>
    requires { length layers.now ≤ MOST_LAYERS }
    ensures { MatchResult result (λ r. AreReadLayers (text_limit limits.segments) (map (λ t. t.now) layers.now) r) (TellsBadLayer (text_limit limits.segments) (map (λ t. t.now) layers.now)) }
{
    let mut read = ReadLayers::none(alloc);
    for number in 0..layers.len() {
        match reading_alone(alloc, limits, layers[number]) {
            Ok(next) => read = read.and(next),
            Err(fault) => return Err(layer_fault(number as u8, fault)),
        }
    }
    Ok(read)
}

/// What is read of a layer text.
fn reading_alone<A: Allocator + Copy>(
    alloc: A,
    limits: FacesLimits,
    text: &[u8],
) -> FeatureReading<A>
    ensures { IsFeatureReading (text_limit limits.segments) text.now result }
{
    read_outlined_features(alloc, text_limit(limits.segments), text)
}

/// The same as `read_layers_alone`, each in parts by so many workers.
pub fn read_layers<A: Allocator + Copy + Send + Sync, R: Threads + Sync>(
    rt: &R,
    alloc: A,
    limits: FacesLimits,
    workers: u32,
    layers: &[&[u8]],
) -> Result<ReadLayers<A>, FacesFault>
    requires { length layers.now ≤ MOST_LAYERS }
    ensures { MatchResult result (λ r. AreReadLayers (text_limit limits.segments) (map (λ t. t.now) layers.now) r) (TellsBadLayer (text_limit limits.segments) (map (λ t. t.now) layers.now)) }
{
    let mut read = ReadLayers::none(alloc);
    for number in 0..layers.len() {
        match reading(rt, alloc, limits, workers, layers[number]) {
            Ok(next) => read = read.and(next),
            Err(fault) => return Err(layer_fault(number as u8, fault)),
        }
    }
    Ok(read)
}

/// What is read of a layer text, in parts by so many workers where it is long.
fn reading<A: Allocator + Copy + Send + Sync, R: Threads + Sync>(
    rt: &R,
    alloc: A,
    limits: FacesLimits,
    workers: u32,
    text: &[u8],
) -> FeatureReading<A>
    ensures { IsFeatureReading (text_limit limits.segments) text.now result }
{
    let parts = worth::parts(workers, text.len(), worth::BYTES);
    read_outlined_features_in_parts(rt, alloc, text_limit(limits.segments), parts, text)
}

/// What is wrong with the layer of a number.
fn layer_fault(number: u8, fault: Fault) -> FacesFault
    ensures at { result.at ≡ FacesPart.Layer number }
    ensures refusal { result.refusal ≡ FacesRefusal.Usual fault }
{
    FacesFault {
        at: FacesPart::Layer(number),
        refusal: FacesRefusal::Usual(fault),
    }
}

/// The features of a layer text that isn't refused: those that were kept, or they are read now.
pub fn features_of<A: Allocator + Copy>(
    alloc: A,
    text: &[u8],
    kept: Option<FeatureLayer<A>>,
) -> Result<FeatureLayer<A>, NoMemory>
    requires { IfSome kept (λ f. StandsForFeatures text.now f × AreFeaturesInLimit f) }
    ensures answer { IfOk result (λ layer. StandsForFeatures text.now layer) }
    ensures in_limit { IfOk result (λ layer. AreFeaturesInLimit layer) }
{
    match kept {
        Some(layer) => Ok(layer),
        None => match read_features_within(alloc, u32::MAX, text) {
            Ok(layer) => Ok(layer),
            Err(_) => Err(NoMemory),
        },
    }
}

//! The segments of the features of layers, each with the number of its feature over all layers.
//!
//! 1. The layers are taken in turn, the features of each in text order (`push_layer`).
//! 2. A feature's segments are those of its rings, and it is the owner of each of them (`push_feature`).

ghost use Rattle.std.specs.Prelude.{◌≡◌, ◌<◌, ◌≤◌, ◌++◌, ◌∷◌, [], IfOk, List, OnOk, get_or, length, map};
ghost use Rattle.columns.specs.Layout.{feature_rings_in, plain};
ghost use Rattle.columns.specs.Refusals.{AreAccepted};
ghost use Rattle.geom.specs.declared.point.Pt.{Pt};
ghost use Rattle.layers.specs.ColumnLayers.{features_of};
ghost use Rattle.layers.specs.FeatureSegments.{AreFeaturesOf, AreOwned, AreSegmentsFrom, HaveOwners};
ghost use Rattle.layers.specs.FeatureLayers.{AreFeaturesInLimit, HaveKept, StandForLayers};
ghost use Rattle.layers.specs.Segments.{AreRingsInLimit};

use crate::feature_checking::CheckedLayers;
use crate::feature_reading::{KeptFeatures, features_of};
use crate::segments::push_rings;
use columns::{Columns, feature_count, push_feature};
use geom::{NoMemory, Ring, Seg, Source};
use std::alloc::Allocator;
use wkt::FeatureLayer;

/// Features have numbers below this one, which is the most that a set of them takes.
const MOST_FEATURES: u32 = 2_147_483_647;

/// How many segments and features a layer has.
#[derive(Clone, Copy, Debug, PartialEq, Eq)]
pub struct LayerSize {
    pub segments: u32,
    pub features: u32,
}

/// The segments of features, those of all layers one after another; the feature of each segment; and the sizes of the layers.
#[derive(Drop)]
pub struct FeatureSegments<A: Allocator> {
    pub segments: Vec<Seg, A>,
    pub owners: Vec<u32, A>,
    pub sizes: Vec<LayerSize, A>,
    pub features: u32,
}

impl<A: Allocator + Copy> FeatureSegments<A> {
    /// Those of no layers, with room for so many segments.
    pub fn new(alloc: A, room: usize) -> Result<FeatureSegments<A>, NoMemory>
        ensures { IfOk result (λ s. AreFeaturesOf [] s) }
    {
        Ok(FeatureSegments {
            segments: Vec::with_capacity(alloc, room)?,
            owners: Vec::with_capacity(alloc, room)?,
            sizes: Vec::new(alloc),
            features: 0,
        })
    }

    /// Adds those of a layer.
    fn push_layer(&mut self, layer: &FeatureLayer<A>) -> Result<(), NoMemory>
        requires rings { AreFeaturesInLimit layer.now }
        requires owned { AreOwned self.old }
        ensures { (layers : List (List (List (List Pt)))) → AreFeaturesOf layers self.old → OnOk result (AreFeaturesOf (layers ++ layer.now ∷ []) self.new) }
    {
        let segments = self.segments.len();
        let features = self.features;
        for number in 0..layer.count() {
            self.push_feature(layer.feature(number))?;
        }
        self.sizes.push(LayerSize {
            segments: u32::try_from(self.segments.len() - segments).map_err(|_| NoMemory)?,
            features: self.features - features,
        })?;
        Ok(())
    }

    /// Adds those of a layer that is columns.
    pub fn push_columns(&mut self, layer: &Columns<'_>) -> Result<(), NoMemory>
        requires accepted { AreAccepted layer.now }
        requires owned { AreOwned self.old }
        ensures { (layers : List (List (List (List Pt)))) → AreFeaturesOf layers self.old → OnOk result (AreFeaturesOf (layers ++ features_of layer.now ∷ []) self.new) }
    {
        let segments = self.segments.len();
        let features = self.features;
        for number in 0..feature_count(layer) {
            self.push_of_columns(layer, number)?;
        }
        self.sizes.push(LayerSize {
            segments: u32::try_from(self.segments.len() - segments).map_err(|_| NoMemory)?,
            features: self.features - features,
        })?;
        Ok(())
    }

    /// Adds those of the feature with this number, counted from 0, of a layer that is columns.
    fn push_of_columns(&mut self, layer: &Columns<'_>, number: usize) -> Result<(), NoMemory>
        requires accepted { AreAccepted layer.now }
        requires number { number < length (feature_rings_in layer.now) }
        requires owned { AreOwned self.old }
        ensures owned { OnOk result (AreOwned self.new) }
        ensures grows { OnOk result ((length self.old.segments.items ≤ length self.new.segments.items) × (self.old.features ≤ self.new.features)) }
        ensures added { (features : List (List (List Pt))) → AreSegmentsFrom features self.old → OnOk result (AreSegmentsFrom (features ++ plain (get_or (feature_rings_in layer.now) number []) ∷ []) self.new) }
        ensures sizes { self.new.sizes ≡ self.old.sizes }
    {
        let owner = self.features;
        if owner >= MOST_FEATURES {
            return Err(NoMemory);
        }
        push_feature(&mut self.segments, layer, number, Source::A)?;
        push_owners(&mut self.owners, self.segments.len(), owner)?;
        self.features = owner + 1;
        Ok(())
    }

    /// Adds those of a feature with these rings.
    fn push_feature(&mut self, rings: &[Ring<A>]) -> Result<(), NoMemory>
        requires rings { AreRingsInLimit rings.now }
        requires owned { AreOwned self.old }
        ensures owned { OnOk result (AreOwned self.new) }
        ensures grows { OnOk result ((length self.old.segments.items ≤ length self.new.segments.items) × (self.old.features ≤ self.new.features)) }
        ensures added { (features : List (List (List Pt))) → AreSegmentsFrom features self.old → OnOk result (AreSegmentsFrom (features ++ rings.now ∷ []) self.new) }
        ensures sizes { self.new.sizes ≡ self.old.sizes }
    {
        let owner = self.features;
        if owner >= MOST_FEATURES {
            return Err(NoMemory);
        }
        push_rings(&mut self.segments, rings, Source::A)?;
        push_owners(&mut self.owners, self.segments.len(), owner)?;
        self.features = owner + 1;
        Ok(())
    }
}

/// Adds an owner until there are so many.
fn push_owners<A: Allocator>(
    owners: &mut Vec<u32, A>,
    count: usize,
    owner: u32,
) -> Result<(), NoMemory>
    requires { length owners.old.items ≤ count }
    ensures { OnOk result (HaveOwners owners.old.items count owner owners.new.items) }
{
    while owners.len() < count {
        owners.push(owner)?;
    }
    Ok(())
}

/// The segments of the features of all layers: of those that were kept, or they are read now.
pub fn segments_of_texts<A: Allocator + Copy>(
    alloc: A,
    checked: &CheckedLayers<'_, '_>,
    kept: KeptFeatures<A>,
) -> Result<FeatureSegments<A>, NoMemory>
    requires { HaveKept (map (λ t. t.now) checked.now.layers.now) kept }
    ensures { IfOk result (λ s. (layers : List (List (List (List Pt)))) × StandForLayers (map (λ t. t.now) checked.now.layers.now) layers × AreFeaturesOf layers s) }
{
    let mut all = FeatureSegments::new(alloc, checked.segments as usize)?;
    let mut kept = kept.unwrap_or(Vec::new(alloc)).into_iter();
    for text in checked.layers {
        let layer = features_of(alloc, text, kept.next().flatten())?;
        all.push_layer(&layer)?;
    }
    Ok(all)
}

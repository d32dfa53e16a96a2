//! A layer text, read into its features.
//!
//! 1. The pass of `read` notes where geometries begin too: at a letter between them, or on the way to the next polygon that the reader
//!    passes in one go (`FeatureCollector`).
//! 2. A geometry's start is the number of whole rings there.

ghost use Rattle.std.specs.Prelude.{◌≡◌, ◌≤◌, ◌⊎◌, List, All, IfOk, IfSome, [], MatchResult, OnOk, length};
ghost use Rattle.geom.specs.Limit.{AreInLimit, InLimit};
ghost use Rattle.geom.specs.declared.point.Pt.{Pt as PtOf};
ghost use Rattle.wkt.specs.Refusals.{IsRefused, IsRefusedWithin, StandsFor, length_limit};
ghost use Rattle.wkt.specs.Features.{AreCut, StandsForFeatures, all_rings, features_of};
ghost use Rattle.wkt.specs.FeatureCollecting.{begun_if, followed, seen};
ghost use Rattle.wkt.specs.Outlines.{IsOutline};

use crate::check::{LENGTH_LIMIT, check_layer_within};
use crate::feature_layer::FeatureLayer;
use crate::feature_lines::gathered_features_in_parts;
use crate::outline::Outline;
use crate::read::{Collector, is_read_at_once};
use crate::reader::{Event, Reader};
use crate::survey::Survey;
use geom::{Fault, NoMemory};
use std::alloc::Allocator;
use std::thread::Threads;

/// The whole rings so far and the points of the ring at hand, and the number of each geometry's first ring.
#[derive(Drop)]
pub struct FeatureCollector<A: Allocator> {
    rings: Collector<A>,
    starts: Vec<usize, A>,
}

impl<A: Allocator + Copy> FeatureCollector<A> {
    /// Without geometries.
    fn new(alloc: A) -> FeatureCollector<A>
        ensures { seen result ≡ (([], []), []) }
    {
        FeatureCollector {
            rings: Collector::new(alloc),
            starts: Vec::new(alloc),
        }
    }

    /// Notes where a geometry begins, if one does.
    #[inline(always)]
    fn begin_if(&mut self, begun: bool) -> Result<(), NoMemory>
        ensures { OnOk result (seen self.new ≡ begun_if begun (seen self.old)) }
    {
        if begun {
            self.starts.push(self.rings.count())?;
        }
        Ok(())
    }

    /// Notes an event, and whether a geometry has begun behind it.
    #[inline(always)]
    fn note(&mut self, alloc: A, event: Event, begun: bool) -> Result<(), NoMemory>
        ensures { OnOk result (seen self.new ≡ followed event begun (seen self.old)) }
    {
        self.begin_if(event.begins_geometry())?;
        self.rings.note(alloc, event)?;
        self.begin_if(begun)
    }

    /// The features.
    fn into_layer(self) -> FeatureLayer<A>
        requires { AreCut (features_of (seen self).0.0 (seen self).1) (seen self).0.0 (seen self).1 }
        ensures { result ≡ features_of (seen self).0.0 (seen self).1 }
    {
        let FeatureCollector { rings, starts } = self;
        FeatureLayer::new(rings.into_rings(), starts)
    }
}

/// The outline and the features of a text, or why it is refused within a limit of bytes; `Memory` as soon as there is none, whatever
/// the text.
pub fn gather_features<A: Allocator + Copy>(
    alloc: A,
    longest: u32,
    text: &[u8],
) -> Result<(Outline, FeatureLayer<A>), Fault>
    ensures { MatchResult result (λ r. StandsForFeatures text.now r.1 × IsOutline (all_rings r.1) r.0 × (length text.now ≤ longest)) (λ fault. IsRefusedWithin longest text.now fault ⊎ (fault ≡ Fault.Memory)) }
{
    if text.len() > longest as usize {
        return Err(Fault::LayerLong);
    }
    let mut reader = Reader::new();
    let mut survey = Survey::new();
    let mut collector = FeatureCollector::new(alloc);
    let mut at = 0;
    while at < text.len() {
        let Some(event) = reader.step(at, text[at]) else {
            return Err(Fault::Syntax(at));
        };
        survey.note(at, event);
        let passed = reader.pass(text, at + 1);
        let Ok(()) = collector.note(alloc, event, passed.begun) else {
            return Err(Fault::Memory);
        };
        at = passed.at;
    }
    if !reader.may_end() {
        return Err(Fault::Syntax(text.len()));
    }
    match survey.verdict() {
        Ok(outline) => Ok((outline, collector.into_layer())),
        Err(fault) => Err(fault),
    }
}

/// A layer that is accepted: its outline, and its features where they were read with it.
#[derive(Drop)]
pub struct OutlinedFeatures<A: Allocator> {
    pub outline: Outline,
    pub features: Option<FeatureLayer<A>>,
}

/// The outline of a layer text with its features, or why it is refused within a limit of bytes, as `check_layer_within` says. Of a
/// long text, and where memory runs out, it is the outline alone.
pub fn read_outlined_features<A: Allocator + Copy>(
    alloc: A,
    longest: u32,
    text: &[u8],
) -> Result<OutlinedFeatures<A>, Fault>
    ensures answer { MatchResult result (λ read. (rings : List (List PtOf)) × StandsFor text.now rings × IsOutline rings read.outline) (λ fault. IsRefusedWithin longest text.now fault) }
    ensures short { IfOk result (λ _. length text.now ≤ longest) }
    ensures features { IfOk result (λ read. IfSome read.features (λ features. StandsForFeatures text.now features)) }
    ensures bounds_in_limit { IfOk result (λ read. IfSome read.outline.bounds (λ r. AreInLimit r.lo r.hi)) }
    ensures in_limit { IfOk result (λ read. IfSome read.features (λ features. All (λ rings. All (λ ring. All InLimit ring) rings) features)) }
{
    if is_read_at_once(longest, text) {
        match gather_features(alloc, longest, text) {
            Ok((outline, features)) => {
                return Ok(OutlinedFeatures {
                    outline,
                    features: Some(features),
                });
            }
            // The text may be at fault behind the place where memory ran out.
            Err(Fault::Memory) => {}
            Err(fault) => return Err(fault),
        }
    }
    Ok(OutlinedFeatures {
        outline: check_layer_within(longest, text)?,
        features: None,
    })
}

/// The features of a layer text in their order, or why it is refused, as `check_layer` says; `Memory` only on a text that
/// `check_layer` accepts.
pub fn read_features<A: Allocator + Copy>(alloc: A, text: &[u8]) -> Result<FeatureLayer<A>, Fault>
    ensures answer { MatchResult result (λ features. StandsForFeatures text.now features) (λ fault. IsRefused text.now fault ⊎ ((fault ≡ Fault.Memory) × (rings : List (List PtOf)) × StandsFor text.now rings × (length text.now ≤ length_limit))) }
    ensures short { IfOk result (λ _. length text.now ≤ length_limit) }
    ensures in_limit { IfOk result (λ features. All (λ rings. All (λ ring. All InLimit ring) rings) features) }
{
    read_features_within(alloc, LENGTH_LIMIT, text)
}

/// The same within a limit of bytes that is given.
pub fn read_features_within<A: Allocator + Copy>(
    alloc: A,
    longest: u32,
    text: &[u8],
) -> Result<FeatureLayer<A>, Fault>
    ensures answer { MatchResult result (λ features. StandsForFeatures text.now features) (λ fault. IsRefusedWithin longest text.now fault ⊎ ((fault ≡ Fault.Memory) × (rings : List (List PtOf)) × StandsFor text.now rings × (length text.now ≤ longest))) }
    ensures short { IfOk result (λ _. length text.now ≤ longest) }
    ensures in_limit { IfOk result (λ features. All (λ rings. All (λ ring. All InLimit ring) rings) features) }
{
    match gather_features(alloc, longest, text) {
        Ok((_, features)) => Ok(features),
        // The text may be at fault behind the place where memory ran out.
        Err(Fault::Memory) => {
            check_layer_within(longest, text)?;
            Err(Fault::Memory)
        }
        Err(fault) => Err(fault),
    }
}

/// As `read_outlined_features`, in so many parts at most, as `read_outlined_in_parts` makes them.
pub fn read_outlined_features_in_parts<A: Allocator + Copy + Send + Sync, R: Threads + Sync>(
    rt: &R,
    alloc: A,
    longest: u32,
    parts: usize,
    text: &[u8],
) -> Result<OutlinedFeatures<A>, Fault>
    ensures answer { MatchResult result (λ read. (rings : List (List PtOf)) × StandsFor text.now rings × IsOutline rings read.outline) (λ fault. IsRefusedWithin longest text.now fault) }
    ensures short { IfOk result (λ _. length text.now ≤ longest) }
    ensures features { IfOk result (λ read. IfSome read.features (λ features. StandsForFeatures text.now features)) }
    ensures bounds_in_limit { IfOk result (λ read. IfSome read.outline.bounds (λ r. AreInLimit r.lo r.hi)) }
    ensures in_limit { IfOk result (λ read. IfSome read.features (λ features. All (λ rings. All (λ ring. All InLimit ring) rings) features)) }
{
    if is_read_at_once(longest, text) {
        if let Ok((outline, features)) = gathered_features_in_parts(rt, alloc, parts, text) {
            return Ok(OutlinedFeatures {
                outline,
                features: Some(features),
            });
        }
    }
    read_outlined_features(alloc, longest, text)
}

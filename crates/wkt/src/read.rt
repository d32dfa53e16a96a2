//! A layer text, read into rings.

ghost use Rattle.std.specs.Prelude.{◌≡◌, ◌≤◌, ◌⊎◌, List, All, IfOk, IfSome, IsTrue, [], MatchResult, OnOk, length};
ghost use Rattle.geom.specs.Limit.{AreInLimit, InLimit};
ghost use Rattle.geom.specs.declared.point.Pt.{Pt as PtOf};
ghost use Rattle.wkt.specs.Refusals.{IsRefused, IsRefusedWithin, StandsFor, length_limit};
ghost use Rattle.wkt.specs.Collecting.{closed, gathered, point_value, view};
ghost use Rattle.wkt.specs.Outlines.{IsOutline};

use crate::check::{LENGTH_LIMIT, check_layer_within};
use crate::lines::gathered_in_parts;
use crate::outline::Outline;
use crate::reader::{Event, Number, Reader};
use crate::survey::Survey;
use geom::{Fault, Layer, NoMemory, Pt, Ring};
use std::alloc::Allocator;
use std::thread::Threads;

/// Whether a text is read in the pass that checks it, where it may have so many bytes at most: one that is longer than a quarter of these
/// may have more points than there should be room for before it is known not to be refused.
pub fn is_read_at_once(longest: u32, text: &[u8]) -> bool
    ensures { IsTrue result → length text.now ≤ longest }
{
    text.len() <= (longest / 4) as usize
}

/// The point that two numbers write, where both are in range.
fn point_of(x: Number, y: Number) -> Pt
    ensures { result ≡ point_value x y }
{
    Pt {
        x: x.value().unwrap_or(0),
        y: y.value().unwrap_or(0),
    }
}

/// The whole rings so far, and the points of the ring at hand.
#[derive(Drop)]
pub struct Collector<A: Allocator> {
    rings: Vec<Ring<A>, A>,
    points: Vec<Pt, A>,
}

impl<A: Allocator + Copy> Collector<A> {
    /// Without rings.
    pub fn new(alloc: A) -> Collector<A>
        ensures { view result ≡ ([], []) }
    {
        Collector {
            rings: Vec::new(alloc),
            points: Vec::new(alloc),
        }
    }

    /// The ring closes. Its last point is its first, and isn't kept; nor is a ring of too few points, since no text with
    /// one is accepted.
    fn close(&mut self, alloc: A) -> Result<(), NoMemory>
        ensures { OnOk result (view self.new ≡ closed (view self.old)) }
    {
        let many = self.points.len();
        if many >= 4 {
            let mut kept = Vec::with_capacity(alloc, many - 1)?;
            kept.extend_from_slice(&self.points[..many - 1])?;
            self.rings.push(Ring::new(kept))?;
        }
        self.points.clear();
        Ok(())
    }

    /// One point more.
    fn point(&mut self, x: Number, y: Number) -> Result<(), NoMemory>
        ensures { OnOk result (view self.new ≡ gathered (Event.Point x y) (view self.old)) }
    {
        self.points.push(point_of(x, y))?;
        Ok(())
    }

    /// Notes an event.
    #[inline(always)]
    pub fn note(&mut self, alloc: A, event: Event) -> Result<(), NoMemory>
        ensures { OnOk result (view self.new ≡ gathered event (view self.old)) }
    {
        match event {
            Event::Nothing | Event::Geometry | Event::Open => Ok(()),
            Event::Point(x, y) => self.point(x, y),
            Event::Last(x, y) => {
                self.point(x, y)?;
                self.close(alloc)
            }
            Event::Close => self.close(alloc),
        }
    }

    /// How many rings are whole.
    pub fn count(&self) -> usize
        ensures { result ≡ length self.now.rings.items }
    {
        self.rings.len()
    }

    /// The whole rings.
    pub fn into_rings(self) -> Vec<Ring<A>, A>
        ensures { result.items ≡ self.rings.items }
    {
        let Collector { rings, .. } = self;
        rings
    }
}

/// The outline and the rings of a text, or why it is refused within a limit of bytes; `Memory` as soon as there is none, whatever the
/// text.
pub fn gather<A: Allocator + Copy>(
    alloc: A,
    longest: u32,
    text: &[u8],
) -> Result<(Outline, Vec<Ring<A>, A>), Fault>
    ensures { MatchResult result (λ r. StandsFor text.now r.1.items × IsOutline r.1.items r.0 × (length text.now ≤ longest)) (λ fault. IsRefusedWithin longest text.now fault ⊎ (fault ≡ Fault.Memory)) }
{
    if text.len() > longest as usize {
        return Err(Fault::LayerLong);
    }
    let mut reader = Reader::new();
    let mut survey = Survey::new();
    let mut collector = Collector::new(alloc);
    let mut at = 0;
    while at < text.len() {
        let Some(event) = reader.step(at, text[at]) else {
            return Err(Fault::Syntax(at));
        };
        survey.note(at, event);
        let Ok(()) = collector.note(alloc, event) else {
            return Err(Fault::Memory);
        };
        let passed = reader.pass(text, at + 1);
        at = passed.at;
    }
    if !reader.may_end() {
        return Err(Fault::Syntax(text.len()));
    }
    match survey.verdict() {
        Ok(outline) => {
            let Collector { rings, .. } = collector;
            Ok((outline, rings))
        }
        Err(fault) => Err(fault),
    }
}

/// A layer that is accepted: its outline, and its rings where they were read with it.
#[derive(Drop)]
pub struct OutlinedLayer<A: Allocator> {
    pub outline: Outline,
    pub layer: Option<Layer<A>>,
}

/// The outline of a layer text with its rings, or why it is refused within a limit of bytes, as `check_layer_within` says. Of a long
/// text, and where memory runs out, it is the outline alone.
pub fn read_outlined<A: Allocator + Copy>(
    alloc: A,
    longest: u32,
    text: &[u8],
) -> Result<OutlinedLayer<A>, Fault>
    ensures answer { MatchResult result (λ read. (rings : List (List PtOf)) × StandsFor text.now rings × IsOutline rings read.outline) (λ fault. IsRefusedWithin longest text.now fault) }
    ensures short { IfOk result (λ _. length text.now ≤ longest) }
    ensures rings { IfOk result (λ read. IfSome read.layer (λ layer. StandsFor text.now layer)) }
    ensures bounds_in_limit { IfOk result (λ read. IfSome read.outline.bounds (λ r. AreInLimit r.lo r.hi)) }
    ensures in_limit { IfOk result (λ read. IfSome read.layer (λ layer. All (λ ring. All InLimit ring) layer)) }
{
    if is_read_at_once(longest, text) {
        match gather(alloc, longest, text) {
            Ok((outline, rings)) => {
                return Ok(OutlinedLayer {
                    outline,
                    layer: Some(Layer::new(rings)),
                });
            }
            // The text may be at fault behind the place where memory ran out.
            Err(Fault::Memory) => {}
            Err(fault) => return Err(fault),
        }
    }
    Ok(OutlinedLayer {
        outline: check_layer_within(longest, text)?,
        layer: None,
    })
}

/// The rings of a layer text in their order, or why it is refused, as `check_layer` says; `Memory` only on a text that
/// `check_layer` accepts.
pub fn read_layer<A: Allocator + Copy>(alloc: A, text: &[u8]) -> Result<Layer<A>, Fault>
    ensures answer { MatchResult result (λ layer. StandsFor text.now layer) (λ fault. IsRefused text.now fault ⊎ ((fault ≡ Fault.Memory) × (rings : List (List PtOf)) × StandsFor text.now rings × (length text.now ≤ length_limit))) }
    ensures short { IfOk result (λ _. length text.now ≤ length_limit) }
    ensures in_limit { IfOk result (λ layer. All (λ ring. All InLimit ring) layer) }
{
    read_layer_within(alloc, LENGTH_LIMIT, text)
}

/// The same within a limit of bytes that is given.
pub fn read_layer_within<A: Allocator + Copy>(
    alloc: A,
    longest: u32,
    text: &[u8],
) -> Result<Layer<A>, Fault>
    ensures answer { MatchResult result (λ layer. StandsFor text.now layer) (λ fault. IsRefusedWithin longest text.now fault ⊎ ((fault ≡ Fault.Memory) × (rings : List (List PtOf)) × StandsFor text.now rings × (length text.now ≤ longest))) }
    ensures short { IfOk result (λ _. length text.now ≤ longest) }
    ensures in_limit { IfOk result (λ layer. All (λ ring. All InLimit ring) layer) }
{
    match gather(alloc, longest, text) {
        Ok((_, rings)) => Ok(Layer::new(rings)),
        // The text may be at fault behind the place where memory ran out.
        Err(Fault::Memory) => {
            check_layer_within(longest, text)?;
            Err(Fault::Memory)
        }
        Err(fault) => Err(fault),
    }
}

/// As `read_outlined`, in so many parts at most: a text whose geometries stand on lines of their own is parted between them, and all
/// parts are read at once. Where one of them is no layer by itself, the whole is read once more.
pub fn read_outlined_in_parts<A: Allocator + Copy + Send + Sync, R: Threads + Sync>(
    rt: &R,
    alloc: A,
    longest: u32,
    parts: usize,
    text: &[u8],
) -> Result<OutlinedLayer<A>, Fault>
    ensures answer { MatchResult result (λ read. (rings : List (List PtOf)) × StandsFor text.now rings × IsOutline rings read.outline) (λ fault. IsRefusedWithin longest text.now fault) }
    ensures short { IfOk result (λ _. length text.now ≤ longest) }
    ensures rings { IfOk result (λ read. IfSome read.layer (λ layer. StandsFor text.now layer)) }
    ensures bounds_in_limit { IfOk result (λ read. IfSome read.outline.bounds (λ r. AreInLimit r.lo r.hi)) }
    ensures in_limit { IfOk result (λ read. IfSome read.layer (λ layer. All (λ ring. All InLimit ring) layer)) }
{
    if is_read_at_once(longest, text) {
        if let Ok((outline, rings)) = gathered_in_parts(rt, alloc, parts, text) {
            return Ok(OutlinedLayer {
                outline,
                layer: Some(Layer::new(rings)),
            });
        }
    }
    read_outlined(alloc, longest, text)
}

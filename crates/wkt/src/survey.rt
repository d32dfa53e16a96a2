//! The outline of a layer and its faults, from point to point.

ghost use Rattle.std.specs.Prelude.{◌≡◌};
ghost use Rattle.wkt.specs.Surveying.{added, closed_ring, fresh, judged, opened_at, pointed, shown, stretched, took};

use crate::outline::Outline;
use crate::reader::{Event, Number};
use geom::{Fault, Pt, Rect};

/// What is known of a layer text so far: its first number out of range, its first fault of a ring, and its outline.
#[derive(Drop)]
pub struct Survey {
    /// The offset of the first number outside the limit; behind it nothing else is noted.
    outside: Option<usize>,
    fault: Option<Fault>,
    outline: Outline,
    ring_at: usize,
    points: u32,
    first: Pt,
    last: Pt,
}

impl Survey {
    /// Before the first byte.
    pub fn new() -> Survey
        ensures { shown result ≡ fresh }
    {
        let origin = Pt { x: 0, y: 0 };
        Survey {
            outside: None,
            fault: None,
            outline: Outline {
                segments: 0,
                bounds: None,
            },
            ring_at: 0,
            points: 0,
            first: origin,
            last: origin,
        }
    }

    /// Notes the event at this offset.
    #[inline(always)]
    pub fn note(&mut self, at: usize, event: Event)
        ensures { shown self.new ≡ took (shown self.old) at event }
    {
        match event {
            Event::Nothing | Event::Geometry => {}
            Event::Open => self.open(at),
            Event::Point(x, y) => self.point(x, y),
            Event::Last(x, y) => {
                self.point(x, y);
                self.close();
            }
            Event::Close => self.close(),
        }
    }

    /// A ring opens at this offset.
    #[inline(never)]
    fn open(&mut self, at: usize)
        ensures { shown self.new ≡ opened_at (shown self.old) at }
    {
        self.ring_at = at;
        self.points = 0;
    }

    /// One segment more.
    #[inline(always)]
    fn segment(&mut self, a: Pt, b: Pt)
        ensures { shown self.new ≡ stretched (shown self.old) a b }
    {
        let bounds = match self.outline.bounds {
            None => Rect::spanned_by(a, b),
            Some(bounds) => bounds.with(a).with(b),
        };
        self.outline = Outline {
            segments: self.outline.segments.saturating_add(1),
            bounds: Some(bounds),
        };
    }

    /// One point more in the ring at hand.
    #[inline(always)]
    fn add(&mut self, p: Pt)
        ensures { shown self.new ≡ added (shown self.old) p }
    {
        if self.points == 0 {
            self.first = p;
        } else if self.last != p {
            self.segment(self.last, p);
        }
        self.points = self.points.saturating_add(1);
        self.last = p;
    }

    /// One point more, unless a number was out of range before.
    #[inline(always)]
    fn point(&mut self, x: Number, y: Number)
        ensures { shown self.new ≡ pointed (shown self.old) x y }
    {
        if self.outside.is_some() {
            return;
        }
        let Some(x_value) = x.value() else {
            self.outside = Some(x.at);
            return;
        };
        let Some(y_value) = y.value() else {
            self.outside = Some(y.at);
            return;
        };
        self.add(Pt {
            x: x_value,
            y: y_value,
        });
    }

    /// The ring closes.
    #[inline(never)]
    fn close(&mut self)
        ensures { shown self.new ≡ closed_ring (shown self.old) }
    {
        if self.fault.is_none() {
            if self.points < 4 {
                self.fault = Some(Fault::RingShort(self.ring_at));
            } else if self.first != self.last {
                self.fault = Some(Fault::RingOpen(self.ring_at));
            }
        }
        self.points = 0;
    }

    /// The answer at the end: a number out of range goes before a fault of a ring.
    pub fn verdict(self) -> Result<Outline, Fault>
        ensures { result ≡ judged self.outside self.fault self.outline }
    {
        let Survey {
            outside,
            fault,
            outline,
            ..
        } = self;
        if let Some(at) = outside {
            return Err(Fault::NumberRange(at));
        }
        match fault {
            Some(fault) => Err(fault),
            None => Ok(outline),
        }
    }
}

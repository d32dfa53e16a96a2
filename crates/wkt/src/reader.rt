//! A reader of layer texts, byte by byte.

ghost use Rattle.std.specs.Prelude.{◌≡◌, ◌+◌, ◌*◌, ◌≤◌, ℕ, false, length, min, option_map};
ghost use Rattle.wkt.specs.Machine.{Notes, start, may_end};
ghost use Rattle.wkt.specs.Reading.{ReaderIs, Stepped, begins_geometry, number_next, x_next, event_as, kind_of, u32_max, value_of, with_digit};
ghost use Rattle.wkt.specs.Running.{Passes};

use crate::places::{Class, Place};
use crate::runs::{NUMBER_ROOM, behind_space, number, number_behind_space, stands};
use geom::COORDINATE_LIMIT;

/// A number as it is written, and the offset of its first byte.
#[derive(Clone, Copy, Debug, PartialEq, Eq)]
pub struct Number {
    pub at: usize,
    pub negative: bool,
    /// At most `u32::MAX`, which also stands for all above it.
    pub magnitude: u32,
}

impl Number {
    /// The value, if it is within the limit.
    #[inline(always)]
    pub fn value(self) -> Option<i32>
        ensures { result ≡ value_of self }
    {
        if self.magnitude > COORDINATE_LIMIT.unsigned_abs() {
            return None;
        }
        let value = self.magnitude as i32;
        Some(if self.negative { -value } else { value })
    }

    /// The number with one digit more.
    #[inline(always)]
    pub fn with_digit(self, digit: u8) -> Number
        ensures { result ≡ with_digit self digit }
    {
        Number {
            magnitude: longer(self.magnitude, digit),
            ..self
        }
    }
}

/// The magnitude with one digit more.
#[inline(always)]
fn longer(magnitude: u32, digit: u8) -> u32
    ensures { result ≡ min (min (magnitude * 10) u32_max + digit) u32_max }
{
    // No saturation where none can be: it takes longer.
    if magnitude < 400_000_000 {
        magnitude * 10 + u32::from(digit)
    } else {
        magnitude
            .saturating_mul(10)
            .saturating_add(u32::from(digit))
    }
}

/// The most bytes of a point that is passed at once: a space and a number, twice.
const POINT_ROOM: usize = 22;

/// What stands between the rings of most polygons.
const NEXT_POLYGON: [u8; 11] = *b")\nPOLYGON (";

/// What a byte completes.
#[derive(Clone, Copy, Debug, PartialEq, Eq)]
pub enum Event {
    Nothing,
    /// A geometry begins.
    Geometry,
    /// A ring opens.
    Open,
    Point(Number, Number),
    /// A point, and its ring closes.
    Last(Number, Number),
    /// A ring closes.
    Close,
}

impl Event {
    /// Whether a geometry begins.
    #[inline(always)]
    pub fn begins_geometry(self) -> bool
        ensures { result ≡ begins_geometry self }
    {
        matches!(self, Event::Geometry)
    }
}

/// An event without its numbers.
#[derive(Clone, Copy, Debug, PartialEq, Eq)]
enum Kind {
    Nothing,
    Geometry,
    Open,
    Point,
    Last,
    Close,
}

impl Kind {
    /// The event of this kind, with these numbers where it has any.
    #[inline(always)]
    fn event(self, x: Number, y: Number) -> Event
        ensures { result ≡ event_as self x y }
    {
        match self {
            Kind::Nothing => Event::Nothing,
            Kind::Geometry => Event::Geometry,
            Kind::Open => Event::Open,
            Kind::Point => Event::Point(x, y),
            Kind::Last => Event::Last(x, y),
            Kind::Close => Event::Close,
        }
    }
}

/// How far a reader has passed on.
#[derive(Clone, Copy, Debug)]
pub struct Passed {
    /// The offset behind what it passed.
    pub at: usize,
    /// Whether a geometry has begun on the way.
    pub begun: bool,
}

/// A reader of one layer text: its place in the grammar, and the numbers of the point at hand.
#[derive(Clone, Copy, Debug)]
pub struct Reader {
    place: Place,
    multi: bool,
    x: Number,
    number: Number,
}

impl Reader {
    /// Before the first byte.
    pub fn new() -> Reader
        ensures place { result.place ≡ start.place }
        ensures notes { ReaderIs result start.notes }
    {
        let number = Number {
            at: 0,
            negative: false,
            magnitude: 0,
        };
        Reader {
            place: Place::Between,
            multi: false,
            x: number,
            number,
        }
    }

    /// Whether the text may end here.
    pub fn may_end(&self) -> bool
        ensures { result ≡ may_end self.now.place }
    {
        self.place.may_end()
    }

    /// Reads the byte at this offset; `None` where no layer goes on so.
    #[inline(always)]
    pub fn step(&mut self, at: usize, byte: u8) -> Option<Event>
        ensures { (m : Notes) → ReaderIs self.old m → Stepped at byte self.old m result self.new }
    {
        // Most points stand before a comma, and most of the others before the end of a ring.
        if let Place::DigitsY = self.place {
            if byte == b',' {
                self.place = Place::BeforePoint;
                return Some(Event::Point(self.x, self.number));
            }
            if byte == b')' {
                self.place = Place::AfterRing;
                return Some(Event::Last(self.x, self.number));
            }
        }
        let kind = self.step_anywhere(at, byte)?;
        Some(kind.event(self.x, self.number))
    }

    /// The same wherever the reader stands, but for the numbers of the event, which are the reader's own. It is no part of the loops that
    /// read: these then keep what most points need in registers.
    #[inline(never)]
    fn step_anywhere(&mut self, at: usize, byte: u8) -> Option<Kind>
        ensures { (m : Notes) → ReaderIs self.old m → Stepped at byte self.old m (option_map (λ kind. event_as kind self.new.x self.new.number) result) self.new }
    {
        let class = Class::of(byte);
        let place = self.place;
        let next = place.turn(class, self.multi)?;
        self.multi = place.is_multi_after(class, self.multi);
        self.x = place.x_after(class, self.x, self.number);
        self.number = place.number_after(class, at, self.number);
        self.place = next;
        Some(place.kind(class))
    }

    /// Passes what completes nothing and is quickly told: before a point, the point without its end; before its second number, this; behind
    /// the last ring of a polygon, the way to the next polygon's first.
    #[inline(always)]
    pub fn pass(&mut self, text: &[u8], at: usize) -> Passed
        requires { at ≤ length text.now }
        ensures { Passes text.now at result.at result.begun self.old self.new }
    {
        match self.place {
            Place::BeforePoint => {
                Passed {
                    at: self.pass_point(text, at),
                    begun: false,
                }
            }
            Place::BeforeY => {
                Passed {
                    at: self.pass_second(text, at),
                    begun: false,
                }
            }
            Place::AfterRing => self.pass_to_polygon(text, at),
            _ => Passed { at, begun: false },
        }
    }

    /// Behind a ring, passes the end of its polygon and the next one as far as its first ring, if they stand there as in
    /// most texts; else nothing.
    #[inline(never)]
    fn pass_to_polygon(&mut self, text: &[u8], at: usize) -> Passed
        requires within { at ≤ length text.now }
        requires place { self.old.place ≡ Place.AfterRing }
        ensures { Passes text.now at result.at result.begun self.old self.new }
    {
        if self.multi || !stands(text, at, &NEXT_POLYGON) {
            return Passed { at, begun: false };
        }
        self.place = Place::BeforeRing;
        Passed {
            at: at + NEXT_POLYGON.len(),
            begun: true,
        }
    }

    /// Before a point, passes the point without its end, or its first number, or the space before it, as far as they stand
    /// there as in most texts and the text goes on far enough. The offset behind them.
    #[inline(never)]
    fn pass_point(&mut self, text: &[u8], at: usize) -> usize
        requires within { at ≤ length text.now }
        requires place { self.old.place ≡ Place.BeforePoint }
        ensures { Passes text.now at result false self.old self.new }
    {
        if text.len() - at < POINT_ROOM {
            return at;
        }
        let from = behind_space(text, at);
        let Some((x, gap)) = number(text, from) else {
            return from;
        };
        // Field by field, since a whole number is copied with its padding.
        let Some((y, end)) = number_behind_space(text, gap) else {
            self.number.at = x.at;
            self.number.negative = x.negative;
            self.number.magnitude = x.magnitude;
            self.place = Place::DigitsX;
            return gap;
        };
        self.x.at = x.at;
        self.x.negative = x.negative;
        self.x.magnitude = x.magnitude;
        self.number.at = y.at;
        self.number.negative = y.negative;
        self.number.magnitude = y.magnitude;
        self.place = Place::DigitsY;
        end
    }

    /// Behind another gap than a space, passes a point's second number, if it stands there and the text goes on far enough. The
    /// offset behind it.
    #[inline(never)]
    fn pass_second(&mut self, text: &[u8], at: usize) -> usize
        requires within { at ≤ length text.now }
        requires place { self.old.place ≡ Place.BeforeY }
        ensures { Passes text.now at result false self.old self.new }
    {
        if text.len() - at < NUMBER_ROOM {
            return at;
        }
        let Some((y, end)) = number(text, at) else {
            return at;
        };
        self.number = y;
        self.place = Place::DigitsY;
        end
    }
}

impl Place {
    /// The number at hand after one byte more.
    #[inline(always)]
    fn number_after(self, class: Class, at: usize, number: Number) -> Number
        ensures { result ≡ number_next self class at number }
    {
        match (self, class) {
            (Place::BeforePoint | Place::BeforeY, Class::Minus) => {
                Number {
                    at,
                    negative: true,
                    magnitude: 0,
                }
            }
            (Place::BeforePoint | Place::BeforeY, Class::Digit(digit)) => {
                Number {
                    at,
                    negative: false,
                    magnitude: u32::from(digit),
                }
            }
            (Place::MinusX | Place::MinusY, Class::Digit(digit)) => {
                Number {
                    magnitude: u32::from(digit),
                    ..number
                }
            }
            (Place::DigitsX | Place::DigitsY, Class::Digit(digit)) => number.with_digit(digit),
            _ => number,
        }
    }

    /// The point's first number after one byte more.
    #[inline(always)]
    fn x_after(self, class: Class, x: Number, number: Number) -> Number
        ensures { result ≡ x_next self class x number }
    {
        match (self, class) {
            (Place::DigitsX, Class::Space) => number,
            _ => x,
        }
    }

    /// What one byte more completes.
    #[inline(always)]
    fn kind(self, class: Class) -> Kind
        ensures { result ≡ kind_of self class }
    {
        match (self, class) {
            (Place::Between, Class::Letter(_)) => Kind::Geometry,
            (Place::BeforeRing, Class::Open) => Kind::Open,
            (Place::DigitsY, Class::Space | Class::Comma) => Kind::Point,
            (Place::DigitsY, Class::Close) => Kind::Last,
            (Place::AfterPoint, Class::Close) => Kind::Close,
            _ => Kind::Nothing,
        }
    }
}

//! Layers of chance: what columns give is what texts of the same rings give.

use crate::arrays::written::{line_of, push_ring};
use columns::{Columns, Points};
use engine::{
    ColumnsOutput, ColumnsRefused, Limits, Output, Plan, run_alone, run_columns_alone_within,
    run_columns_within,
};
use geom::{NoMemory, Op};
use std::alloc::Global;
use std::sync::Wait;
use std::test::Fail;
use std::thread::Threads;
use tile_book::OpenGate;

const OPS: [Op; 4] = [
    Op::Union,
    Op::Intersection,
    Op::Difference,
    Op::SymDifference,
];

/// How many pairs of layers are tried.
const PAIRS: u32 = 60;

/// Numbers of chance (Marsaglia's xorshift, 32 bits).
#[derive(Clone, Copy)]
pub struct Chance {
    pub state: u32,
}

impl Chance {
    /// The next number, below another one.
    pub fn below(&mut self, bound: u32) -> u32 {
        let mut x = self.state;
        x ^= x << 13;
        x ^= x >> 17;
        x ^= x << 5;
        self.state = x;
        x.checked_rem(bound).unwrap_or(0)
    }

    /// A coordinate from -9 to 9.
    fn coordinate(&mut self) -> i32 {
        i32::try_from(self.below(19)).map_or(0, |number| number.wrapping_sub(9))
    }
}

/// A length as an offset.
fn number(length: usize) -> Result<u32, NoMemory> {
    u32::try_from(length).map_err(|_| NoMemory)
}

/// A layer as text and as columns, a polygon of one ring for each feature.
#[derive(Drop)]
pub struct Both {
    pub text: Vec<u8>,
    coordinates: Vec<i32>,
    offsets: Vec<u32>,
    numbers: Vec<u32>,
}

impl Both {
    fn new(alloc: Global) -> Result<Both, NoMemory> {
        let mut offsets = Vec::new(alloc);
        offsets.push(0)?;
        let mut numbers = Vec::new(alloc);
        numbers.push(0)?;
        Ok(Both {
            text: Vec::new(alloc),
            coordinates: Vec::new(alloc),
            offsets,
            numbers,
        })
    }

    /// Adds a feature of one ring.
    fn push(&mut self, alloc: Global, ring: &[i32]) -> Result<(), NoMemory> {
        self.text.extend_from_slice(b"POLYGON (")?;
        push_ring(alloc, &mut self.text, ring)?;
        self.text.extend_from_slice(b")\n")?;
        self.coordinates.extend_from_slice(ring)?;
        self.offsets.push(number(self.coordinates.len() / 2)?)?;
        self.numbers.push(number(self.numbers.len())?)?;
        Ok(())
    }

    pub fn columns(&self) -> Columns<'_> {
        Columns {
            points: Points::Interleaved(&self.coordinates),
            rings: &self.offsets,
            polygons: &self.numbers,
            features: &self.numbers,
        }
    }
}

/// A closed ring of three to six points and the first again.
fn ring_of(alloc: Global, chance: &mut Chance) -> Result<Vec<i32>, NoMemory> {
    let (x, y) = (chance.coordinate(), chance.coordinate());
    let mut ring = Vec::new(alloc);
    ring.push(x)?;
    ring.push(y)?;
    for _ in 0..chance.below(4).saturating_add(2) {
        ring.push(chance.coordinate())?;
        ring.push(chance.coordinate())?;
    }
    ring.push(x)?;
    ring.push(y)?;
    Ok(ring)
}

/// A layer of up to three features.
pub fn layer_of(alloc: Global, chance: &mut Chance) -> Result<Both, NoMemory> {
    let mut layer = Both::new(alloc)?;
    for _ in 0..chance.below(4) {
        let ring = ring_of(alloc, chance)?;
        layer.push(alloc, &ring)?;
    }
    Ok(layer)
}

/// Whether an operation on layers has the same polygons by columns as by texts.
fn is_same<R: Threads + Wait + Sync>(
    rt: &R,
    alloc: Global,
    op: Op,
    a: &Both,
    b: &Both,
    workers: u32,
) -> Result<bool, NoMemory> {
    let Ok(Output { text, .. }) = run_alone(alloc, op, &a.text, &b.text, 16) else {
        return Ok(false);
    };
    let plan = Plan { side: 16, workers };
    let limits = Limits::default();
    let (a, b) = (a.columns(), b.columns());
    let alone = run_columns_alone_within(alloc, op, &a, &b, 16, limits);
    let by_workers = run_columns_within(rt, alloc, op, &a, &b, plan, limits, &OpenGate);
    Ok(has_line(alloc, alone, &text)? && has_line(alloc, by_workers, &text)?)
}

/// Whether the columns of an output have this line.
fn has_line(
    alloc: Global,
    output: Result<ColumnsOutput<Global>, ColumnsRefused>,
    line: &[u8],
) -> Result<bool, NoMemory> {
    match output {
        Ok(ColumnsOutput { columns, .. }) => Ok(line_of(alloc, &columns)?.as_slice() == line),
        Err(_) => Ok(false),
    }
}

#[test]
fn columns_and_texts_have_one_result(rt: HostRuntime) -> Result<(), Fail> {
    let mut chance = Chance {
        state: 2_463_534_242,
    };
    for pair in 0..PAIRS {
        let a = layer_of(rt.alloc(), &mut chance)?;
        let b = layer_of(rt.alloc(), &mut chance)?;
        for op in OPS {
            let workers = pair % 3 + 1;
            assert!(rt; is_same(&rt, rt.alloc(), op, &a, &b, workers)?, "{pair}");
        }
    }
    Ok(())
}

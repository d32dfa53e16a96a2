//! The lines of layers whose features overlap, worked out by hand, and a refusal.

use engine::{FacesPart, FacesRefusal, MemSink, Plan, run_covered};
use geom::{Fault, NoMemory, Op};
use std::alloc::Global;
use std::sync::Wait;
use std::test::Fail;
use std::thread::Threads;
use tile_book::OpenGate;

/// An operation, two layers, and the line of the result.
type Case = (Op, &'static str, &'static str, &'static str);

const SQUARES: &str = "POLYGON ((0 0, 4 0, 4 4, 0 4, 0 0))\nPOLYGON ((2 2, 6 2, 6 6, 2 6, 2 2))\n";

const SECOND: &str = "POLYGON ((2 2, 6 2, 6 6, 2 6, 2 2))\n";

const COPIES: &str =
    "POLYGON ((0 0, 2 0, 2 2, 0 2, 0 0))\nPOLYGON ((0 0, 2 0, 2 2, 0 2, 0 0))\nPOLYGON ((0 0, 2 0, 2 2, 0 2, 0 0))\n";

const ONE: &str = "POLYGON ((0 0, 2 0, 2 2, 0 2, 0 0))";

const NESTED: &str = "POLYGON ((0 0, 9 0, 9 9, 0 9, 0 0))\nPOLYGON ((3 3, 6 3, 6 6, 3 6, 3 3))\n";

const INNER: &str = "POLYGON ((3 3, 6 3, 6 6, 3 6, 3 3))\n";

const BOTH: &str = "MULTIPOLYGON (((0 0, 4 0, 4 2, 6 2, 6 6, 2 6, 2 4, 0 4, 0 0)))\n";

const WITHOUT_CORNER: &str = "MULTIPOLYGON (((0 0, 4 0, 4 2, 2 2, 2 4, 0 4, 0 0)))\n";

const SQUARE: &str = "MULTIPOLYGON (((0 0, 2 0, 2 2, 0 2, 0 0)))\n";

const OUTER: &str = "MULTIPOLYGON (((0 0, 9 0, 9 9, 0 9, 0 0)))\n";

const FRAME: &str = "MULTIPOLYGON (((0 0, 9 0, 9 9, 0 9, 0 0), (3 3, 3 6, 6 6, 6 3, 3 3)))\n";

const EMPTY: &str = "MULTIPOLYGON EMPTY\n";

const CASES: [Case; 9] = [
    (Op::Union, SQUARES, "", BOTH),
    (Op::Union, "", SQUARES, BOTH),
    (Op::Difference, SQUARES, SECOND, WITHOUT_CORNER),
    (Op::Union, SQUARES, SECOND, BOTH),
    (Op::Intersection, COPIES, COPIES, SQUARE),
    (Op::SymDifference, COPIES, ONE, EMPTY),
    (Op::Union, NESTED, "", OUTER),
    (Op::Difference, NESTED, INNER, FRAME),
    (Op::Intersection, "", "", EMPTY),
];

/// Whether layers have this line by a plan.
fn is_line<R: Threads + Wait + Sync>(
    rt: &R,
    alloc: Global,
    case: Case,
    plan: Plan,
) -> Result<bool, NoMemory> {
    let (op, a, b, line) = case;
    let mut sink = MemSink::new(alloc, 4096)?;
    match run_covered(
        rt,
        alloc,
        op,
        a.as_bytes(),
        b.as_bytes(),
        plan,
        &OpenGate,
        &mut sink,
    ) {
        Ok(_report) => Ok(sink.bytes() == line.as_bytes() && sink.is_settled()),
        Err(_) => Ok(false),
    }
}

/// Sides of tiles, and numbers of workers.
const PLANS: [(u32, u32); 4] = [(16, 1), (16, 3), (33_554_432, 1), (33_554_432, 3)];

#[test]
fn features_do_not_cancel(rt: HostRuntime) -> Result<(), Fail> {
    for case in CASES {
        for (side, workers) in PLANS {
            let plan = Plan { side, workers };
            assert!(rt; is_line(&rt, rt.alloc(), case, plan)?, "{}", case.3);
        }
    }
    Ok(())
}

#[test]
fn second_layer_is_refused(rt: HostRuntime) -> Result<(), Fail> {
    let plan = Plan {
        side: 16,
        workers: 2,
    };
    let mut sink = MemSink::new(rt.alloc(), 64)?;
    let refused = run_covered(
        &rt,
        rt.alloc(),
        Op::Union,
        SQUARES.as_bytes(),
        b"POLYGON",
        plan,
        &OpenGate,
        &mut sink,
    );
    let at = match refused {
        Ok(_report) => None,
        Err(fault) => Some((fault.at, fault.refusal)),
    };
    assert!(rt; at == Some((FacesPart::Layer(1), FacesRefusal::Usual(Fault::Syntax(7)))));
    assert!(rt; sink.bytes().is_empty());
    Ok(())
}

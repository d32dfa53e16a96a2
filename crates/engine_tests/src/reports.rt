//! What is printed of a run.

use crate::texts::APART_REPORT;
use engine::{Report, line, report_text, status};
use geom::{Fault, Part, RunFault};
use std::test::Fail;

#[test]
fn says_why_a_run_is_refused(rt: HostRuntime) -> Result<(), Fail> {
    let fault = RunFault {
        at: Part::Run,
        fault: Fault::TooManyTiles(65792),
    };
    assert_eq!(rt; status(&fault), 3);
    assert!(rt;
        line(rt.alloc(), &fault)?.as_slice() == b"overlay: 8 too many tiles: 65792\n".as_slice()
    );
    Ok(())
}

#[test]
fn prints_a_report(rt: HostRuntime) -> Result<(), Fail> {
    let report = Report {
        segments_a: 7,
        segments_b: 0,
        hot: 7,
        records: 15,
        edges: 7,
        remade: 0,
        tiles: vec![in rt.alloc(); (4, 8), (1, 2), (1, 2), (1, 3)]?,
    };
    assert!(rt; report_text(rt.alloc(), &report)?.as_slice() == APART_REPORT.as_bytes());
    Ok(())
}

//! The same rows and reports by the calling thread alone, whose requests for memory are refused in turn by `--fail-alloc`.

use crate::faces::cases::{CASES, Case, lent};
use engine::{FacesLimits, FacesPart, FacesRefusal, faces_alone, faces_report_text};
use geom::{Fault, NoMemory};
use std::alloc::Global;
use std::test::Fail;

/// Whether layers have these rows, and this report unless it is left out, over tiles of this side.
fn are_rows(alloc: Global, case: Case, side: u32, told: bool) -> Result<bool, NoMemory> {
    let (texts, rows, report) = case;
    let layers = lent(alloc, texts)?;
    match faces_alone(alloc, &layers, side, FacesLimits::default()) {
        Ok(found) => {
            let text = faces_report_text(alloc, &found.report)?;
            let same = !told || text.as_slice() == report.as_bytes();
            Ok(same && found.text.as_slice() == rows.as_bytes())
        }
        Err(_) => Ok(false),
    }
}

#[test]
fn rows_are_those_of_the_workers(rt: HostRuntime) -> Result<(), Fail> {
    for case in CASES {
        for (side, told) in [(33_554_432, true), (16, false)] {
            assert!(rt; are_rows(rt.alloc(), case, side, told)?, "{}", case.1);
        }
    }
    Ok(())
}

/// What the front of a layer is refused for, over tiles of this side.
fn refused(alloc: Global, side: u32) -> Result<Option<(FacesPart, FacesRefusal)>, NoMemory> {
    let layers = lent(alloc, &["POLYGON ((0 0"])?;
    match faces_alone(alloc, &layers, side, FacesLimits::default()) {
        Ok(_) => Ok(None),
        Err(fault) => Ok(Some((fault.at, fault.refusal))),
    }
}

#[test]
fn refuses_a_side_before_a_layer(rt: HostRuntime) -> Result<(), Fail> {
    for (side, at, fault) in [
        (15, FacesPart::Run, Fault::BadTile),
        (16, FacesPart::Layer(0), Fault::Syntax(13)),
    ] {
        assert_eq!(rt;
            refused(rt.alloc(), side)?,
            Some((at, FacesRefusal::Usual(fault)))
        );
    }
    Ok(())
}

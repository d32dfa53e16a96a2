//! As many layers as there may be: bars from one corner, each longer than the one before.

use engine::{MOST_LAYERS, MemSink, Plan, faces};
use geom::NoMemory;
use std::alloc::Global;
use std::sync::Wait;
use std::test::Fail;
use std::thread::Threads;
use tile_book::OpenGate;

/// The bar of each layer's one feature, longer by one than that of the layer before.
fn bars(alloc: Global) -> Result<Vec<String>, NoMemory> {
    let mut texts = Vec::new(alloc);
    for number in 1..MOST_LAYERS + 1 {
        texts.push(format!(in alloc; "POLYGON ((0 0, {number} 0, {number} 1, 0 1, 0 0))")?)?;
    }
    Ok(texts)
}

/// Adds the line of the square that only the bars from this layer on cover, the layers counted from 0.
fn push_square(alloc: Global, text: &mut String, first: usize) -> Result<(), NoMemory> {
    text.push_str("2")?;
    for number in 0..MOST_LAYERS {
        text.push_str(if number < first { "\t" } else { "\t1" })?;
    }
    let next = first.wrapping_add(1);
    let shape = format!(in alloc;
        "\tMULTIPOLYGON ((({first} 0, {next} 0, {next} 1, {first} 1, {first} 0)))\n"
    )?;
    text.push_str(&shape)?;
    Ok(())
}

/// The rows of the bars: a square each.
fn squares(alloc: Global) -> Result<String, NoMemory> {
    let mut text = String::new(alloc);
    for first in 0..MOST_LAYERS {
        push_square(alloc, &mut text, first)?;
    }
    Ok(text)
}

/// Whether the bars have these rows by a plan.
fn are_squares<R: Threads + Wait + Sync>(
    rt: &R,
    alloc: Global,
    layers: &[&[u8]],
    plan: Plan,
    rows: &str,
) -> Result<bool, NoMemory> {
    let mut sink = MemSink::new(alloc, 20_000)?;
    if layers.len() > MOST_LAYERS {
        return Ok(false);
    }
    match faces(rt, alloc, layers, plan, &OpenGate, &mut sink) {
        Ok(report) => Ok(
            report.layers.len() == 64
                && report.rows == 64
                && report.ids == 2_080
                && sink.bytes() == rows.as_bytes(),
        ),
        Err(_) => Ok(false),
    }
}

#[test]
fn takes_as_many_layers_as_there_may_be(rt: HostRuntime) -> Result<(), Fail> {
    let texts = bars(rt.alloc())?;
    let rows = squares(rt.alloc())?;
    let mut layers = Vec::new(rt.alloc());
    for text in &texts {
        layers.push(text.as_bytes())?;
    }
    for (side, workers) in [(16, 1), (16, 3), (262_144, 64)] {
        let plan = Plan { side, workers };
        assert!(rt;
            are_squares(&rt, rt.alloc(), &layers, plan, &rows)?,
            "{side} {workers}"
        );
    }
    Ok(())
}

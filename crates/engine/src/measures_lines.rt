//! The text of measures: twice the areas of both layers and of the result, and the steps of both layers' routes.

ghost use Rattle.std.specs.Prelude.{◌≡◌, ◌++◌, IfOk, OnOk};
ghost use Rattle.std.specs.Fmt.{signed_decimal};
ghost use Rattle.engine.specs.MeasuresText.{areas_line, measures_text_of, steps_line};

use crate::measures::Measures;
use geom::NoMemory;
use std::alloc::{AllocError, Allocator};
use wkt::push_number;

/// Adds twice an area.
fn push_area<A: Allocator>(text: &mut Vec<u8, A>, twice_area: i64) -> Result<(), AllocError>
    ensures { OnOk result (text.new.items ≡ text.old.items ++ signed_decimal twice_area) }
{
    push_number(text, twice_area)
}

/// Adds the line of the areas: twice that of each layer, and of the result.
fn push_areas<A: Allocator>(text: &mut Vec<u8, A>, measures: &Measures) -> Result<(), AllocError>
    ensures { OnOk result (text.new.items ≡ text.old.items ++ areas_line measures.now) }
{
    text.extend_from_slice(b"area2 ")?;
    push_area(text, measures.a.twice_area)?;
    text.push(b' ')?;
    push_area(text, measures.b.twice_area)?;
    text.push(b' ')?;
    push_area(text, measures.twice_area)?;
    text.push(b'\n')?;
    Ok(())
}

/// Adds the line of the steps of each layer's routes.
fn push_steps<A: Allocator>(text: &mut Vec<u8, A>, measures: &Measures) -> Result<(), AllocError>
    ensures { OnOk result (text.new.items ≡ text.old.items ++ steps_line measures.now) }
{
    text.extend_from_slice(b"steps ")?;
    push_number(text, measures.a.steps)?;
    text.push(b' ')?;
    push_number(text, measures.b.steps)?;
    text.push(b'\n')?;
    Ok(())
}

/// The text of measures, a line each for areas and steps.
pub fn measures_text<A: Allocator>(alloc: A, measures: &Measures) -> Result<Vec<u8, A>, NoMemory>
    ensures { IfOk result (λ text. text.items ≡ measures_text_of measures.now) }
{
    let mut text = Vec::new(alloc);
    push_areas(&mut text, measures)?;
    push_steps(&mut text, measures)?;
    Ok(text)
}

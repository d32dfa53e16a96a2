//! A layer text, checked without memory.

ghost use Rattle.std.specs.Prelude.{◌≤◌, List, IfOk, IfSome, MatchResult, length};
ghost use Rattle.geom.specs.Limit.{AreInLimit};
ghost use Rattle.geom.specs.declared.point.Pt.{Pt};
ghost use Rattle.wkt.specs.Refusals.{IsRefused, IsRefusedWithin, StandsFor, length_limit};
ghost use Rattle.wkt.specs.Outlines.{IsOutline};

use crate::outline::Outline;
use crate::reader::Reader;
use crate::survey::Survey;
use geom::Fault;

/// The greatest length of a layer text, in bytes, where no limit is given.
pub const LENGTH_LIMIT: u32 = 268_435_456;

/// The outline of a layer text, or why it is refused: too long, no layer text, a number out of range, or a ring with
/// too few points or left open, in this order. Takes no memory.
pub fn check_layer(text: &[u8]) -> Result<Outline, Fault>
    ensures answer { MatchResult result (λ outline. (rings : List (List Pt)) × StandsFor text.now rings × IsOutline rings outline) (λ fault. IsRefused text.now fault) }
    ensures short { IfOk result (λ _. length text.now ≤ length_limit) }
    ensures in_limit { IfOk result (λ outline. IfSome outline.bounds (λ r. AreInLimit r.lo r.hi)) }
{
    check_layer_within(LENGTH_LIMIT, text)
}

/// The same within a limit of bytes that is given: a longer text is too long.
pub fn check_layer_within(longest: u32, text: &[u8]) -> Result<Outline, Fault>
    ensures answer { MatchResult result (λ outline. (rings : List (List Pt)) × StandsFor text.now rings × IsOutline rings outline) (λ fault. IsRefusedWithin longest text.now fault) }
    ensures short { IfOk result (λ _. length text.now ≤ longest) }
    ensures in_limit { IfOk result (λ outline. IfSome outline.bounds (λ r. AreInLimit r.lo r.hi)) }
{
    if text.len() > longest as usize {
        return Err(Fault::LayerLong);
    }
    let mut reader = Reader::new();
    let mut survey = Survey::new();
    let mut at = 0;
    while at < text.len() {
        let Some(event) = reader.step(at, text[at]) else {
            return Err(Fault::Syntax(at));
        };
        survey.note(at, event);
        let passed = reader.pass(text, at + 1);
        at = passed.at;
    }
    if !reader.may_end() {
        return Err(Fault::Syntax(text.len()));
    }
    survey.verdict()
}

//! Whole numbers, and coordinates.

ghost use Rattle.std.specs.Prelude.{◌≡◌, ℕ, MatchOption, min};
ghost use Rattle.std.specs.Str.Parse.{IsNumeral, digits_value, starts_with_minus, without_leading_sign};
ghost use Rattle.edge_lines.specs.Lines.{IsCoordinate};

use crate::fault::LineFault;
use geom::COORDINATE_LIMIT;

/// Above the coordinate limit; it stands for all numbers from it on.
const CEILING: u32 = 400_000_000;

/// The number that digits write, or `CEILING` where it is greater.
fn value_of_digits(digits: &[u8]) -> Option<u32>
    ensures { MatchOption result (¬ IsNumeral 10 digits.now) (λ n. IsNumeral 10 digits.now × (n ≡ min (digits_value 10 digits.now) CEILING)) }
{
    if digits.is_empty() {
        return None;
    }
    let mut value = 0;
    for digit in digits {
        if !digit.is_ascii_digit() {
            return None;
        }
        value = (value * 10 + u32::from(digit - b'0')).min(CEILING);
    }
    Some(value)
}

/// Whether a word begins with `-`, and what stands behind its sign, if it has one.
fn parted(word: &[u8]) -> (bool, &[u8])
    ensures negative { result.0 ≡ starts_with_minus word.now }
    ensures digits { result.1.now ≡ without_leading_sign word.now }
{
    match word.first() {
        Some(b'-') => (true, &word[1..]),
        Some(b'+') => (false, &word[1..]),
        _ => (false, word),
    }
}

/// The coordinate that a word writes: a sign or none, and digits.
pub(crate) fn coordinate(word: &[u8]) -> Result<i32, LineFault>
    ensures { IsCoordinate word.now result }
{
    let (negative, digits) = parted(word);
    let Some(value) = value_of_digits(digits) else {
        return Err(LineFault::Syntax);
    };
    if value > COORDINATE_LIMIT.unsigned_abs() {
        return Err(LineFault::Range);
    }
    let value = value as i32;
    Ok(if negative { -value } else { value })
}

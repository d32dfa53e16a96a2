//! Runs of white space and of digits, which a reader passes in one go.

ghost use Rattle.std.specs.Prelude.{IsTrue, ◌≡◌, ◌+◌, ◌≤◌, ◌<◌, IfSome, length, slice_index};
ghost use Rattle.wkt.specs.Machine.{class_of};
ghost use Rattle.wkt.specs.declared.places.Class.{Class};
ghost use Rattle.wkt.specs.Running.{Passes, PassesSpaces, PassesDigits, PassesNumber, PassesSecond, Stands};

use crate::reader::Number;

/// The offset behind the space at this offset, if one stands there.
#[inline(always)]
pub fn behind_space(text: &[u8], at: usize) -> usize
    requires { at < length text.now }
    ensures { PassesSpaces text.now at result × (result ≤ at + 1) }
{
    if text[at] != b' ' {
        return at;
    }
    at + 1
}

/// Whether this word stands at this offset.
#[inline(always)]
pub fn stands(text: &[u8], at: usize, word: &[u8]) -> bool
    requires { at ≤ length text.now }
    ensures { IsTrue result → Stands text.now at word.now }
{
    if text.len() - at < word.len() {
        return false;
    }
    for index in 0..word.len() {
        if text[at + index] != word[index] {
            return false;
        }
    }
    true
}

/// The value of a digit; `None` of any other byte.
#[inline(always)]
fn digit_value(byte: u8) -> Option<u32>
    ensures { IfSome result (λ value. (class_of byte ≡ Class.Digit value) × (value < 10)) }
{
    // One test: a byte below the digits wraps to far above them.
    let value = u32::from(byte).wrapping_sub(u32::from(b'0'));
    if value > 9 {
        return None;
    }
    Some(value)
}

/// How many digits behind a first one always make a `u32`.
const MORE_DIGITS: usize = 8;

/// The magnitude of a number of one digit with the digits from this offset on, as far as they always make a `u32`, and the
/// offset behind them.
#[inline(always)]
fn with_digits(text: &[u8], at: usize, number: Number) -> (u32, usize)
    requires within { at + MORE_DIGITS ≤ length text.now }
    requires digit { number.magnitude < 10 }
    ensures { PassesDigits text.now at result.1 number (record number { magnitude = result.0 }) × (result.1 ≤ at + MORE_DIGITS) }
{
    let mut magnitude = number.magnitude;
    for index in 0..MORE_DIGITS {
        let Some(digit) = digit_value(text[at + index]) else {
            return (magnitude, at + index);
        };
        magnitude = magnitude * 10 + digit;
    }
    (magnitude, at + MORE_DIGITS)
}

/// The most bytes of a number that is read at once: a sign, a digit and those behind it.
pub const NUMBER_ROOM: usize = 10;

/// The number at this offset, if one stands there, and the offset behind it. The text goes on far enough, so that no digit needs a test of its
/// end, nor of the magnitude.
#[inline(always)]
pub fn number(text: &[u8], at: usize) -> Option<(Number, usize)>
    requires { at + NUMBER_ROOM ≤ length text.now }
    ensures { IfSome result (λ found. PassesNumber text.now at found.1 found.0 × (found.1 ≤ at + NUMBER_ROOM)) }
{
    if text[at] == b'-' {
        let from = at + 1;
        let value = digit_value(text[from])?;
        let first = Number {
            at,
            negative: true,
            magnitude: value,
        };
        let (magnitude, end) = with_digits(text, from + 1, first);
        return Some((Number { magnitude, ..first }, end));
    }
    let value = digit_value(text[at])?;
    let first = Number {
        at,
        negative: false,
        magnitude: value,
    };
    let (magnitude, end) = with_digits(text, at + 1, first);
    Some((Number { magnitude, ..first }, end))
}

/// The number behind a space at this offset, if both stand there, and the offset behind it.
#[inline(always)]
pub fn number_behind_space(text: &[u8], at: usize) -> Option<(Number, usize)>
    requires { at + 1 + NUMBER_ROOM ≤ length text.now }
    ensures { IfSome result (λ found. PassesSecond text.now at found.1 found.0) }
{
    if text[at] != b' ' {
        return None;
    }
    number(text, at + 1)
}

//! Why faces are refused, and the line that the program prints for it.

ghost use Rattle.std.specs.Prelude.{◌≡◌, IfOk, Some, string_bytes};
ghost use Rattle.layers.specs.FaultWords.{faces_line_of, faces_status_of, layer_name, refusal_words};

use geom::{Fault, NoMemory};
use std::alloc::Allocator;
use std::fmt;

/// How many layers are named by a letter.
const LETTERS: u8 = 26;

/// What a refusal of faces is about.
#[derive(Clone, Copy, Debug, PartialEq, Eq)]
pub enum FacesPart {
    /// The layer of this number, counted from 0.
    Layer(u8),
    Run,
}

/// Why faces are refused.
#[derive(Clone, Copy, Debug, PartialEq, Eq)]
pub enum FacesRefusal {
    /// As other calls are refused.
    Usual(Fault),
    /// All rows together have this many features, above the limit.
    TooManyIds(u64),
}

/// Why faces are refused, and what for.
#[derive(Clone, Copy, Debug)]
pub struct FacesFault {
    pub at: FacesPart,
    pub refusal: FacesRefusal,
}

impl fmt::Display for FacesRefusal {
    ghost output = { λ r. Some (refusal_words r) };

    fn fmt<W: fmt::Write>(&self, f: &mut fmt::Formatter<W>) -> fmt::Result {
        match self {
            FacesRefusal::Usual(fault) => write!(f, "{fault}"),
            FacesRefusal::TooManyIds(count) => write!(f, "12 too many ids: {count}"),
        }
    }
}

impl FacesFault {
    /// A refusal of the run.
    pub fn of_run(fault: Fault) -> FacesFault
        ensures at { result.at ≡ FacesPart.Run }
        ensures refusal { result.refusal ≡ FacesRefusal.Usual fault }
    {
        FacesFault {
            at: FacesPart::Run,
            refusal: FacesRefusal::Usual(fault),
        }
    }
}

/// The program's exit status at a fault: 1 where memory or the sink failed, otherwise 3.
pub fn faces_status(fault: &FacesFault) -> u8
    ensures { result ≡ faces_status_of fault.now.refusal }
{
    match fault.refusal {
        FacesRefusal::Usual(Fault::Memory) | FacesRefusal::Usual(Fault::Write) => 1,
        _ => 3,
    }
}

/// What the layer of a number, counted from 0, is called: `A` to `Z`, and from the 27th on the number counted from 1.
pub fn layer_name<A: Allocator + Copy>(alloc: A, number: u8) -> Result<String<A>, NoMemory>
    ensures { IfOk result (λ name. string_bytes name ≡ layer_name number) }
{
    if number < LETTERS {
        let letter = char::from(b'A' + number);
        return Ok(format!(in alloc; "{letter}")?);
    }
    Ok(format!(in alloc; "{}", u32::from(number) + 1)?)
}

/// The line that the program prints for a fault, with its LF.
pub fn faces_line<A: Allocator + Copy>(alloc: A, fault: &FacesFault) -> Result<Vec<u8, A>, NoMemory>
    ensures { IfOk result (λ text. text.items ≡ faces_line_of fault.now) }
{
    let words = match fault.at {
        FacesPart::Run => format!(in alloc; "overlay: {}\n", fault.refusal)?,
        FacesPart::Layer(number) => {
            let name = layer_name(alloc, number)?;
            format!(in alloc; "overlay: {name}: {}\n", fault.refusal)?
        }
    };
    Ok(words.into_bytes())
}

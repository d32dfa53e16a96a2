//! Where the words of a command line come from.

ghost use Rattle.std.specs.Prelude.{◌≡◌, IfOk, IfSome, map, string_bytes};

use std::alloc::Global;
use std::env;
use std::io::ErrorKind;
use std::rt::Env;

/// Why there are no words.
#[derive(Clone, Copy, Debug, PartialEq, Eq)]
pub enum WordsFault {
    /// A word is no text.
    NoText,
    /// Memory ran out while they were read.
    Memory,
}

/// Where the words of a command line come from.
pub trait Words {
    ghost use Rattle.std.specs.Prelude.{ℕ, List, Option, None};

    // the words, where it tells them
    ghost told: { Self → Option (List (List ℕ)) } = { λ _. None };

    /// The words, of which the first is the program's name.
    fn words(&self, alloc: Global) -> Result<Vec<String>, WordsFault>
        ensures { IfOk result (λ read. IfSome (told self.now) (λ words. map string_bytes read.items ≡ words)) };
}

/// The words of the process. No contract says what they are.
#[derive(Drop)]
pub struct ProcessWords<'a, R> {
    rt: &'a R,
}

impl<'a, R: Env + AllocGlobal> ProcessWords<'a, R> {
    /// The words that a runtime has.
    pub fn new(rt: &'a R) -> ProcessWords<'a, R> {
        ProcessWords { rt }
    }
}

impl<R: Env + AllocGlobal> Words for ProcessWords<'_, R> {
    fn words(&self, alloc: Global) -> Result<Vec<String>, WordsFault> {
        match env::args(self.rt) {
            Ok(words) => match words.collect::<Vec<String>>(alloc) {
                Ok(words) => Ok(words),
                Err(_) => Err(WordsFault::Memory),
            },
            Err(error) if error.kind() == ErrorKind::OutOfMemory => Err(WordsFault::Memory),
            Err(_) => Err(WordsFault::NoText),
        }
    }
}

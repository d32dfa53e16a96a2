//! Where layer texts are read.

ghost use Rattle.std.specs.Prelude.{◌≡◌, ◌≤◌, ◌+◌, IfOk, IfSome, MatchResult, length, take};

use std::alloc::Allocator;
use std::io::{ErrorKind, Read};
use std::{fs, io, rt};

/// Why a file is not read.
#[derive(Clone, Copy, Debug, PartialEq, Eq)]
pub enum LoadFault {
    /// It can't be opened or read: it is missing, a folder, or not for this user.
    Unreadable,
    /// Memory ran out while it was read.
    Memory,
}

/// Where files are read by their names.
pub trait Files {
    ghost use Rattle.std.specs.Prelude.{ℕ};
    ghost use Rattle.program.specs.Loading.{Loads};

    // the most bytes that a text may have, the files before, a name, what is answered, and the files after: nothing is known of them
    // where an impl keeps this
    ghost loads: { ℕ → Loads Self } = { λ _ _ _ _ _. Unit {0} };

    /// A file's bytes, where a layer text may have so many: to its end, or to one byte past that.
    fn load<A: Allocator>(
        &mut self,
        alloc: A,
        longest: u32,
        name: &str,
    ) -> Result<Vec<u8, A>, LoadFault>
        ensures short { IfOk result (λ bytes. length bytes.items ≤ longest + 1) }
        ensures loaded { MatchResult result (λ bytes. loads longest self.old name.now (Ok bytes.items) self.new) (λ fault. loads longest self.old name.now (Err fault) self.new) };
}

/// What opens files by their names.
pub trait Folder {
    ghost use Rattle.std.specs.Prelude.{ℕ, List};

    type File: Read + Drop;

    // the folder, a name, and the file that it opens: nothing is known of that where an impl keeps this
    ghost opens: { Self → List ℕ → Self.File → Type 0 } = { λ _ _ _. Unit {0} };

    /// The file of this name.
    fn open(&self, name: &str) -> io::Result<Self::File>
        ensures { IfOk result (λ file. opens self.now name.now file) };
}

/// The machine's files. No contract says what they hold.
#[derive(Drop)]
pub struct Machine<'a, R> {
    rt: &'a R,
}

impl<'a, R: rt::Files> Machine<'a, R> {
    /// The files that a runtime opens.
    pub fn new(rt: &'a R) -> Machine<'a, R> {
        Machine { rt }
    }
}

impl<R: rt::Files> Folder for Machine<'_, R> {
    type File = R::File;

    fn open(&self, name: &str) -> io::Result<R::File> {
        fs::open(self.rt, name)
    }
}

/// The files of a folder, each read from its start.
#[derive(Drop)]
pub struct Disk<F> {
    folder: F,
}

impl<F: Folder> Disk<F> {
    ghost use Rattle.program.specs.Loading.{IsReadOf};

    /// The files that a folder opens.
    pub fn new(folder: F) -> Disk<F> {
        Disk { folder }
    }

    fn read<A: Allocator>(&self, alloc: A, longest: u32, name: &str) -> io::Result<Vec<u8, A>>
        ensures short { IfOk result (λ bytes. length bytes.items ≤ longest + 1) }
        ensures read { IfOk result (λ bytes. IsReadOf F.opens F.File.remaining self.now.folder name.now longest bytes.items) }
    {
        read_front(alloc, longest as usize + 1, self.folder.open(name)?)
    }
}

/// The first bytes that a reader gives: all of them, or so many.
fn read_front<A: Allocator, R: Read + Drop>(
    alloc: A,
    most: usize,
    reader: R,
) -> io::Result<Vec<u8, A>>
    ensures short { IfOk result (λ bytes. length bytes.items ≤ most) }
    ensures front { IfOk result (λ bytes. IfSome (R.remaining reader) (λ all. bytes.items ≡ take most all)) }
{
    let mut bytes = Vec::new(alloc);
    let mut front = reader.take(most as u64);
    io::copy(&mut front, &mut bytes)?;
    bytes.truncate(most);
    Ok(bytes)
}

impl<F: Folder> Files for Disk<F> {
    ghost use Rattle.program.specs.Loading.{IsReadOf};

    ghost loads = { λ longest old name answer new. (new ≡ old) × IfOk answer (IsReadOf F.opens F.File.remaining old.folder name longest) };

    fn load<A: Allocator>(
        &mut self,
        alloc: A,
        longest: u32,
        name: &str,
    ) -> Result<Vec<u8, A>, LoadFault> {
        match self.read(alloc, longest, name) {
            Ok(bytes) => Ok(bytes),
            Err(error) if error.kind() == ErrorKind::OutOfMemory => Err(LoadFault::Memory),
            Err(_) => Err(LoadFault::Unreadable),
        }
    }
}

//! The program driven over files and sinks in memory.

ghost use Rattle.std.specs.Prelude.{Some};

use engine_tests::texts::{BELOW, BOW_TIE, OTHER, SQUARE, WEDGE, WHOLE};
use geom::NoMemory;
use program::{
    Disk, Folder, Printer, Stream, Words as WordSource, WordsFault, drive, drive_process,
};
use std::alloc::{AllocError, Global};
use std::io;
use std::io::{Cursor, ErrorKind};
use std::sync::Wait;
use std::thread::Threads;

/// Files in memory, by name.
const TEXTS: [(&str, &str); 19] = [
    ("square", SQUARE),
    ("other", OTHER),
    // Both squares in one layer.
    (
        "overlap",
        "POLYGON ((0 0, 4 0, 4 4, 0 4, 0 0))\nPOLYGON ((2 2, 6 2, 6 6, 2 6, 2 2))\n",
    ),
    ("wedge", WEDGE),
    ("below", BELOW),
    ("bow tie", BOW_TIE),
    ("nothing", ""),
    ("empty", "polygon empty"),
    ("decimal", "POLYGON ((0 0, 1.5 0, 0 1, 0 0))"),
    ("cut", "POLYGON ((0 0"),
    ("joined", "POLYGON EMPTYPOLYGON EMPTY"),
    ("bare", "POLYGON (0 0, 1 0, 0 1, 0 0)"),
    // The whole text is looked at before any number, whether it is in range or not.
    ("ends", "POLYGON ((99999999 0, 1 0, 1 1)"),
    ("ends outside", "POLYGON ((999999999 0, 1 0, 1 1)"),
    ("outside", "POLYGON ((0 0, 268435457 0, 0 1, 0 0))"),
    ("whole", WHOLE),
    ("short", "POLYGON ((0 0, 1 0, 0 1))"),
    ("open", "POLYGON ((0 0, 1 0, 1 1, 0 1))"),
    (
        "inner",
        "POLYGON ((0 0, 4 0, 4 4, 0 4, 0 0), (1 1, 2 2, 1 1))",
    ),
];

/// One byte more than a layer text may have where no limit is given.
const LONG: usize = 268_435_457;

/// A folder of files in memory.
#[derive(Drop)]
struct MemFolder {
    alloc: Global,
}

/// So many copies of a text.
fn copies(alloc: Global, text: &str, count: u32) -> Result<Vec<u8>, AllocError> {
    let mut bytes = Vec::new(alloc);
    for _ in 0..count {
        bytes.extend_from_slice(text.as_bytes())?;
    }
    Ok(bytes)
}

/// A square, spaces behind it until the text is too long, and another square.
fn parted(alloc: Global) -> Result<Vec<u8>, AllocError> {
    let mut bytes = Vec::from_slice(alloc, SQUARE.as_bytes())?;
    bytes.resize(LONG, b' ')?;
    bytes.extend_from_slice(OTHER.as_bytes())?;
    Ok(bytes)
}

/// The text of a file, where it is one of them.
fn text_of(name: &str) -> Option<&'static str> {
    for (known, text) in TEXTS {
        if known == name {
            return Some(text);
        }
    }
    None
}

/// The bytes of a file in memory: of one that is too long, of one with too many segments, or of one of the texts.
fn bytes_of(alloc: Global, name: &str) -> Option<Result<Vec<u8>, AllocError>> {
    match name {
        "long" => Some(vec![in alloc; b' '; LONG]),
        "parted" => Some(parted(alloc)),
        "many" => Some(copies(alloc, SQUARE, 262_145)),
        _ => text_of(name).map(|text| Vec::from_slice(alloc, text.as_bytes())),
    }
}

impl Folder for MemFolder {
    type File = Cursor<Vec<u8>>;

    fn open(&self, name: &str) -> io::Result<Cursor<Vec<u8>>> {
        match bytes_of(self.alloc, name) {
            Some(Ok(bytes)) => Ok(Cursor::new(bytes)),
            Some(Err(_)) => Err(io::Error::from(ErrorKind::OutOfMemory)),
            None => Err(io::Error::from(ErrorKind::NotFound)),
        }
    }
}

/// Keeps what is printed, as long as there is room for it.
#[derive(Drop)]
pub struct Recorder {
    bytes: Vec<u8>,
    room: usize,
}

impl Recorder {
    /// One with room for so many bytes.
    pub fn new(alloc: Global, room: usize) -> Recorder {
        Recorder {
            bytes: Vec::new(alloc),
            room,
        }
    }

    /// The bytes printed.
    pub fn bytes(&self) -> &[u8] {
        self.bytes.as_slice()
    }
}

impl Printer for Recorder {
    ghost printed = { λ r. Some r.bytes.items };

    fn print(&mut self, bytes: &[u8]) -> io::Result<usize> {
        let left = self.room.saturating_sub(self.bytes.len());
        if left == 0 {
            return Err(io::Error::from(ErrorKind::StorageFull));
        }
        let count = bytes.len().min(left);
        match self.bytes.extend_from_slice(&bytes[..count]) {
            Ok(()) => Ok(count),
            Err(_) => Err(io::Error::from(ErrorKind::OutOfMemory)),
        }
    }
}

/// What is printed.
#[derive(Clone, Copy)]
pub enum Words {
    /// These bytes.
    Text(&'static str),
    /// A text that begins so.
    Begins(&'static str),
}

fn is_told(bytes: &[u8], told: Words) -> bool {
    match told {
        Words::Text(text) => bytes == text.as_bytes(),
        Words::Begins(text) => bytes.starts_with(text.as_bytes()),
    }
}

/// Rooms for all that a case prints.
pub const ROOMS: (usize, usize) = (4000, 4000);

/// The exit status, and what is printed to standard output and to standard error.
pub type Given = (u8, Words, Words);

/// A command line behind the program's name, its exit status, and what it prints to standard output and standard error.
pub type Case = (&'static [&'static str], u8, &'static str, Words);

/// The program's name, and the words of a command line behind it.
fn line_of<'a>(alloc: Global, rest: &[&'a str]) -> Result<Vec<&'a str>, NoMemory> {
    let mut words = Vec::new(alloc);
    words.push("overlay")?;
    words.extend_from_slice(rest)?;
    Ok(words)
}

/// Whether just this is printed.
fn is_printed(stream: &Stream<Recorder>, told: Words) -> bool {
    is_told(stream.printer().bytes(), told)
}

/// Whether a command line behind the program's name gives this, with room for so many bytes in both streams.
pub fn gives<R: Threads + Wait + Sync>(
    rt: &R,
    alloc: Global,
    rest: &[&str],
    rooms: (usize, usize),
    given: Given,
) -> Result<bool, NoMemory> {
    let words = line_of(alloc, rest)?;
    let mut files = Disk::new(MemFolder { alloc });
    let mut out = Stream::new(Recorder::new(alloc, rooms.0));
    let mut err = Stream::new(Recorder::new(alloc, rooms.1));
    let status = drive(rt, alloc, &words, &mut files, &mut out, &mut err);
    Ok(status == given.0 && is_printed(&out, given.1) && is_printed(&err, given.2))
}

/// The words of a process, or why there are none.
#[derive(Clone, Copy)]
pub enum MemWords {
    Line(&'static [&'static str]),
    Fault(WordsFault),
}

fn strings_of(alloc: Global, words: &[&str]) -> Result<Vec<String>, NoMemory> {
    let mut strings = Vec::new(alloc);
    for word in words {
        strings.push(String::from_str(alloc, word)?)?;
    }
    Ok(strings)
}

impl WordSource for MemWords {
    fn words(&self, alloc: Global) -> Result<Vec<String>, WordsFault> {
        match *self {
            MemWords::Line(words) => match strings_of(alloc, words) {
                Ok(strings) => Ok(strings),
                Err(_) => Err(WordsFault::Memory),
            },
            MemWords::Fault(fault) => Err(fault),
        }
    }
}

/// Whether a process with these words gives this.
pub fn process_gives<R: AllocGlobal + Threads + Wait + Sync>(
    rt: &R,
    words: MemWords,
    given: Given,
) -> bool {
    let alloc = rt.alloc();
    let mut files = Disk::new(MemFolder { alloc });
    let mut out = Stream::new(Recorder::new(alloc, ROOMS.0));
    let mut err = Stream::new(Recorder::new(alloc, ROOMS.1));
    let status = drive_process(rt, &words, &mut files, &mut out, &mut err);
    status == given.0 && is_printed(&out, given.1) && is_printed(&err, given.2)
}

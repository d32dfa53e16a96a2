//! The program over the engine, as a library: the words of a command line in, an exit status out.
//!
//! 1. The words are read (`cli`, `asked`).
//! 2. The files are loaded (`files`), and the engine is called on their texts (`program`).
//! 3. The answer goes to standard output, all else to standard error (`stream`).
//!
//! The promise: which text goes to which sink, and which status is answered (`specs/Program`).
#![tactic(auto)]

mod asked;
mod cli;
mod covered_program;
mod faces_cli;
mod faces_program;
mod files;
mod measured_program;
mod noded_cli;
mod noded_program;
mod program;
mod stream;
mod words;

pub use asked::{CliFault, Command, FacesRequest, Request};
pub use cli::request;
pub use faces_cli::faces_request;
pub use files::{Disk, Files, Folder, LoadFault, Machine};
pub use noded_cli::{NodedRequest, noded_request};
pub use program::{drive, drive_process};
pub use stream::{ErrSink, Printer, StdSink, Stream};
pub use words::{ProcessWords, Words, WordsFault};

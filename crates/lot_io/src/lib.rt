//! What lies outside the planner: named files to read and write, and a place to print to.
//!
//! Family: outside. It stands on `whole_numbers`; `cert_stream`, `stream_check`, `lotplan` and `lotplan_main` stand on it.
//!
//! `Shelf` and `Sink` are the two traits that the rest is written over. Each has one ghost member,
//! `shown`: what it tells of its contents, and its counts. `specs/Outside` has the words in which
//! contracts speak of it, such as `OnlyReads` and `OnlyWrites`. `read_file` and `write_file` carry
//! whole files. `MemoryShelf` and `MemorySink` tell all that they hold, and fail where they are
//! asked to; `DiskShelf` and `StdSink` are the machine's own files and output, of whose contents
//! nothing is known and whose counts hold all the same. `read_whole` is that of `whole_numbers`.
#![tactic(auto)]

mod files;
mod memory;
mod real;
mod shelf;
mod sink;

pub use files::{PIECE, ReadFault, read_file, write_file};
pub use memory::{MemoryShelf, MemorySink};
pub use real::{DiskShelf, StdSink};
pub use shelf::{Shelf, ShelfFault, WriteFailed};
pub use sink::{Sink, SinkFailed};
pub use whole_numbers::{NumberFault, read_whole};

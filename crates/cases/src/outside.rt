// Runs over files and output in memory, which tell what they hold or don't.
ghost use Rattle.std.specs.Prelude.{false, None, []};
ghost use Rattle.lot_io.specs.Outside.{Printed, Shelved};

use heur_plugin::Plans;
use lot_io::{MemoryShelf, MemorySink, Shelf, ShelfFault, Sink, SinkFailed, WriteFailed};
use lotplan::run;
use price_plugin::Prices;
use std::alloc::{AllocError, Global};
use std::collections::BTreeMap;
use work_clock::Deadline;

/// Files by their names.
pub type Files = BTreeMap<String, Vec<u8>>;

/// The numbers of the calls that are to fail, each kind counted from 1.
#[derive(Drop)]
pub struct Fails {
    pub fetch: Vec<u64>,
    pub start: Vec<u64>,
    pub append: Vec<u64>,
    pub print: Vec<u64>,
}

impl Fails {
    /// None.
    pub fn none(alloc: Global) -> Fails {
        Fails {
            fetch: Vec::new(alloc),
            start: Vec::new(alloc),
            append: Vec::new(alloc),
            print: Vec::new(alloc),
        }
    }
}

/// How many calls of each kind a run made, how many failed, and how many found no memory.
#[derive(Clone, Copy, PartialEq, Eq)]
pub struct Counts {
    pub fetches: u64,
    pub starts: u64,
    pub prints: u64,
    pub faults: u64,
    pub wants: u64,
}

/// What a run leaves: its status, what was printed, the files and the counts.
#[derive(Drop)]
pub struct Left {
    pub status: u8,
    pub printed: Vec<u8>,
    pub files: Files,
    pub counts: Counts,
}

impl Left {
    // What a run with this status leaves.
    fn of(status: u8, shelf: MemoryShelf, out: MemorySink) -> Left {
        let counts = Counts {
            fetches: shelf.fetches,
            starts: shelf.starts,
            prints: out.puts,
            faults: shelf
                .faults
                .saturating_add(shelf.write_faults)
                .saturating_add(out.faults),
            wants: shelf.wants.saturating_add(out.wants),
        };
        Left {
            status,
            printed: out.bytes,
            files: shelf.files,
            counts,
        }
    }

    /// Whether another run left the same.
    pub fn is_same(&self, other: &Left) -> bool {
        self.status == other.status
            && self.counts == other.counts
            && self.printed.as_slice() == other.printed.as_slice()
            && self.files == other.files
    }
}

// The files in memory, but it isn't told what they hold.
#[derive(Drop)]
struct Untold {
    files: MemoryShelf,
}

impl Shelf for Untold {
    ghost shown = { λ s. record { told = false; file = λ _. None; faults = s.files.faults; write_faults = s.files.write_faults; misses = s.files.misses; given = s.files.given; starts = s.files.starts; appends = s.files.appends } };

    fn fetch(&mut self, name: &str, at: u64, room: &mut [u8]) -> Result<usize, ShelfFault> {
        self.files.fetch(name, at, room)
    }

    fn start(&mut self, name: &str) -> Result<(), WriteFailed> {
        self.files.start(name)
    }

    fn append(&mut self, name: &str, piece: &[u8]) -> Result<(), WriteFailed> {
        self.files.append(name, piece)
    }
}

// The output in memory, but it isn't told what was put.
#[derive(Drop)]
struct UntoldSink {
    out: MemorySink,
}

impl Sink for UntoldSink {
    ghost shown = { λ s. record { told = false; bytes = []; puts = s.out.puts; faults = s.out.faults } };

    fn put(&mut self, piece: &[u8]) -> Result<(), SinkFailed> {
        self.out.put(piece)
    }
}

// The status that the words end with. No clause says so: what a run leaves is printed, and rests on no promise of `run`.
fn status_of<S: Shelf, K: Sink>(alloc: Global, words: &[String], shelf: &mut S, out: &mut K) -> u8 {
    let until = Deadline::none();
    run(
        alloc,
        &Prices { until },
        &Plans { until },
        &mut (),
        words,
        shelf,
        out,
    )
}

// Runs words over a shelf and an output that tell what they hold, or don't.
fn left_over(
    alloc: Global,
    words: &[String],
    shelf: MemoryShelf,
    out: MemorySink,
    told: bool,
) -> Left {
    if told {
        let (mut shelf, mut out) = (shelf, out);
        let status = status_of(alloc, words, &mut shelf, &mut out);
        Left::of(status, shelf, out)
    } else {
        let mut shelf = Untold { files: shelf };
        let mut out = UntoldSink { out };
        let status = status_of(alloc, words, &mut shelf, &mut out);
        Left::of(status, shelf.files, out.out)
    }
}

/// Runs words over files, of whose calls some fail.
pub fn left_by(
    alloc: Global,
    words: &[String],
    files: &Files,
    fails: Fails,
    told: bool,
) -> Result<Left, AllocError> {
    let files = files.clone()?;
    let shelf = MemoryShelf::new(alloc, files, fails.fetch, fails.start, fails.append);
    let out = MemorySink::new(alloc, fails.print);
    Ok(left_over(alloc, words, shelf, out, told))
}

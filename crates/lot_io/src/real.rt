// The machine's files and its standard output. Nothing is known of what these hold.
ghost use Rattle.std.specs.Prelude.{true, ◌≡◌, ◌≤◌, length, IfOk, OnOk, OnErr};
ghost use Rattle.std.specs.Io.KnownBytes.{Appends};
ghost use Rattle.std.specs.Fs.{new_options, with_append, with_create};
ghost use Rattle.lot_io.specs.Outside.{GrewBy};
ghost use Rattle.lot_io.specs.Real.{printed, shelved, written_in};

use crate::{Shelf, ShelfFault, Sink, SinkFailed, WriteFailed};
use std::fs;
use std::fs::OpenOptions;
use std::io::{ErrorKind, Read, Seek, SeekFrom, Write};
use std::rt::Files;

/// The machine's files. A name is a path, from the folder that the program runs in.
///
/// It tells nothing of what the files hold. Each count stands still at 2^64 - 1.
#[derive(Drop)]
pub struct DiskShelf<R> {
    files: R,
    /// How many fetches have failed.
    pub faults: u64,
    /// How many starts and appends have failed.
    pub write_faults: u64,
    /// How many names were not found.
    pub misses: u64,
    /// How many bytes fetches have given.
    pub given: u64,
    /// How many starts were made.
    pub starts: u64,
    /// How many appends were made.
    pub appends: u64,
}

impl<R: Files + Drop> DiskShelf<R> {
    /// The shelf over these files.
    pub fn new(files: R) -> DiskShelf<R>
        ensures faults { result.faults ≡ 0 }
        ensures write_faults { result.write_faults ≡ 0 }
        ensures misses { result.misses ≡ 0 }
        ensures given { result.given ≡ 0 }
        ensures starts { result.starts ≡ 0 }
        ensures appends { result.appends ≡ 0 }
    {
        DiskShelf {
            files,
            faults: 0,
            write_faults: 0,
            misses: 0,
            given: 0,
            starts: 0,
            appends: 0,
        }
    }
}

// A count that has grown, or stands at its last value.
fn grown(count: u64, by: u64) -> u64
    ensures grown { GrewBy by count result }
    ensures rises { count ≤ result }
{
    count.saturating_add(by)
}

// Bytes of the file from a place on.
fn fetch_from<R: Files>(
    files: &R,
    name: &str,
    at: u64,
    room: &mut [u8],
) -> Result<usize, ShelfFault>
    ensures { IfOk result (λ n. n ≤ length room.new) }
{
    let mut file = match fs::open(files, name) {
        Ok(file) => file,
        Err(error) => {
            return Err(match error.kind() {
                ErrorKind::NotFound => ShelfFault::Missing,
                _ => ShelfFault::Failed,
            });
        }
    };
    if file.seek(SeekFrom::Start(at)).is_err() {
        return Err(ShelfFault::Failed);
    }
    match file.read(room) {
        Ok(count) => Ok(count),
        Err(_) => Err(ShelfFault::Failed),
    }
}

// How a file is opened to add at its end: for appending, made where it is absent, and never emptied.
fn appending() -> OpenOptions
    ensures { result ≡ with_create (with_append new_options true) true }
{
    let mut options = OpenOptions::new();
    options.append(true);
    options.create(true);
    options
}

// Adds the whole piece at the end of the file.
fn append_to<R: Files>(files: &R, name: &str, piece: &[u8]) -> std::io::Result<()> {
    let mut file = appending().open(files, name)?;
    file.write_all(piece)
}

impl<R: Files> Shelf for DiskShelf<R> {
    ghost shown = { shelved };

    fn fetch(&mut self, name: &str, at: u64, room: &mut [u8]) -> Result<usize, ShelfFault> {
        match fetch_from(&self.files, name, at, room) {
            Ok(count) => {
                self.given = grown(self.given, count as u64);
                Ok(count)
            }
            Err(ShelfFault::Missing) => {
                self.misses = grown(self.misses, 1);
                Err(ShelfFault::Missing)
            }
            Err(ShelfFault::Failed) => {
                self.faults = grown(self.faults, 1);
                Err(ShelfFault::Failed)
            }
        }
    }

    fn start(&mut self, name: &str) -> Result<(), WriteFailed> {
        self.starts = grown(self.starts, 1);
        match fs::create(&self.files, name) {
            Ok(_) => Ok(()),
            Err(_) => {
                self.write_faults = grown(self.write_faults, 1);
                Err(WriteFailed)
            }
        }
    }

    fn append(&mut self, name: &str, piece: &[u8]) -> Result<(), WriteFailed> {
        self.appends = grown(self.appends, 1);
        match append_to(&self.files, name, piece) {
            Ok(()) => Ok(()),
            Err(_) => {
                self.write_faults = grown(self.write_faults, 1);
                Err(WriteFailed)
            }
        }
    }
}

/// Standard output, or any other writer.
///
/// It tells nothing of what was put, beside what the writer itself says. Each count stands still at
/// 2^64 - 1.
#[derive(Drop)]
pub struct StdSink<W> {
    out: W,
    /// How many puts were made.
    pub puts: u64,
    /// How many puts have failed.
    pub faults: u64,
}

impl<W: Write + Drop> StdSink<W> {
    /// The sink over this writer.
    pub fn new(out: W) -> StdSink<W>
        ensures puts { result.puts ≡ 0 }
        ensures faults { result.faults ≡ 0 }
        ensures written { written_in W.contents result ≡ W.contents out }
    {
        StdSink {
            out,
            puts: 0,
            faults: 0,
        }
    }
}

impl<W: Write> Sink for StdSink<W> {
    ghost shown = { printed };

    fn put(&mut self, piece: &[u8]) -> Result<(), SinkFailed>
        ensures fine { OnOk result (self.new.faults ≡ self.old.faults) }
        ensures failed { OnErr result (GrewBy 1 self.old.faults self.new.faults) }
        ensures puts { GrewBy 1 self.old.puts self.new.puts }

        // A writer that says what it holds, as a `Vec` does, holds the whole piece.
        ensures written { OnOk result (Appends (written_in W.contents self.old)
            (written_in W.contents self.new) piece.now) }
    {
        self.puts = grown(self.puts, 1);
        match self.out.write_all(piece) {
            Ok(()) => Ok(()),
            Err(_) => {
                self.faults = grown(self.faults, 1);
                Err(SinkFailed)
            }
        }
    }
}

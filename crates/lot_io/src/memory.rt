// Files and a sink in memory, whose calls can be made to fail by their numbers.
ghost use Rattle.std.specs.Prelude.{◌≡◌, ◌≤◌, ◌-◌, ◌++◌, ◌↔◌, ◌⊎◌, ℕ, min, List, [], length, Some, None, unwrap_or, IfOk, OnOk, OnErr, IsErr, IsErrOf, Contains};
ghost use Rattle.lot_io.specs.Memory.{file_in, next_count, printed, shelved};
ghost use Rattle.lot_io.specs.Shelves.{AddsHalf, AddsNothing, KeepsLists, PutsHalf, PutsNothing};
ghost use Rattle.lot_io.specs.Outside.{Fetched, SameElsewhere, GrewBy, AppendsSome, OnlyReads, OnlyWrites, Finds, Misses, Fails};

use crate::{Shelf, ShelfFault, Sink, SinkFailed, WriteFailed};
use std::alloc::{AllocError, Global};
use std::collections::BTreeMap;

/// Files in memory, which tell what they hold.
///
/// The calls of each kind are counted from 1. A fetch fails exactly where its number is listed. A
/// start or an append fails where its number is listed, and where memory runs out, which `wants`
/// counts. Each count stands still at 2^64 - 1.
#[derive(Drop)]
pub struct MemoryShelf {
    alloc: Global,
    /// The bytes of each file, by its name.
    pub files: BTreeMap<String, Vec<u8>>,
    /// The numbers of the fetches that are to fail.
    pub fail_fetch: Vec<u64>,
    /// The numbers of the starts that are to fail.
    pub fail_start: Vec<u64>,
    /// The numbers of the appends that are to fail.
    pub fail_append: Vec<u64>,
    /// How many fetches were made.
    pub fetches: u64,
    /// How many starts were made.
    pub starts: u64,
    /// How many appends were made.
    pub appends: u64,
    /// How many fetches have failed.
    pub faults: u64,
    /// How many starts and appends have failed.
    pub write_faults: u64,
    /// How many names were not found.
    pub misses: u64,
    /// How many bytes fetches have given.
    pub given: u64,
    /// How many starts and appends found no memory.
    pub wants: u64,
}

impl MemoryShelf {
    ghost use Rattle.lot_io.specs.Shelves.{IsNewShelf};

    /// The shelf with these files, of whose calls these fail. It takes no memory.
    pub fn new(
        alloc: Global,
        files: BTreeMap<String, Vec<u8>>,
        fail_fetch: Vec<u64>,
        fail_start: Vec<u64>,
        fail_append: Vec<u64>,
    ) -> MemoryShelf
        ensures files { result.files ≡ files }
        ensures fail_fetch { result.fail_fetch ≡ fail_fetch }
        ensures fail_start { result.fail_start ≡ fail_start }
        ensures fail_append { result.fail_append ≡ fail_append }
        ensures counts { IsNewShelf result }
    {
        MemoryShelf {
            alloc,
            files,
            fail_fetch,
            fail_start,
            fail_append,
            fetches: 0,
            starts: 0,
            appends: 0,
            faults: 0,
            write_faults: 0,
            misses: 0,
            given: 0,
            wants: 0,
        }
    }
}

// Copies the bytes of a file from a place on, as many as there are and fit.
fn copy_from(file: &[u8], at: u64, room: &mut [u8]) -> usize
    ensures bound { result ≤ length room.new }
    ensures bytes { Fetched file.now at result room.new }
    ensures most { result ≡ min (length room.new) (length file.now - at) }
{
    if at >= file.len() as u64 {
        return 0;
    }
    let rest = &file[at as usize..];
    let count = rest.len().min(room.len());
    room[..count].copy_from_slice(&rest[..count]);
    count
}

impl Shelf for MemoryShelf {
    ghost shown = { shelved };

    /// Gives as many bytes as there are and fit.
    fn fetch(&mut self, name: &str, at: u64, room: &mut [u8]) -> Result<usize, ShelfFault>
        ensures bound { IfOk result (λ n. n ≤ length room.new) }
        ensures bytes { IfOk result (λ n. (bytes : List ℕ)
            × (file_in self.old.files name.now ≡ Some bytes) × Fetched bytes at n room.new) }
        ensures most { IfOk result (λ n. (bytes : List ℕ)
            × (file_in self.old.files name.now ≡ Some bytes)
            × (n ≡ min (length room.new) (length bytes - at))) }
        ensures given { IfOk result (λ n. GrewBy n self.old.given self.new.given) }
        ensures not_given { OnErr result (self.new.given ≡ self.old.given) }
        ensures found { OnOk result (Finds (shelved self.old) (shelved self.new)) }
        ensures missing { IsErrOf result ShelfFault.Missing
            → Misses (shelved self.old) (shelved self.new) }
        ensures absent { IsErrOf result ShelfFault.Missing
            → file_in self.old.files name.now ≡ None }
        ensures failed { IsErrOf result ShelfFault.Failed
            → Fails (shelved self.old) (shelved self.new) }
        ensures reads { OnlyReads (shelved self.old) (shelved self.new) }

        // It fails exactly where its number is listed.
        ensures fails { IsErrOf result ShelfFault.Failed ↔ Contains self.old.fail_fetch.items
            (next_count self.old.fetches) }
        ensures counted { self.new.fetches ≡ next_count self.old.fetches }
        ensures lists { KeepsLists self.old self.new }
        ensures wants { self.new.wants ≡ self.old.wants }
    {
        self.fetches = self.fetches.saturating_add(1);
        if self.fail_fetch.contains(&self.fetches) {
            self.faults = self.faults.saturating_add(1);
            return Err(ShelfFault::Failed);
        }
        match self.files.get(name) {
            None => {
                self.misses = self.misses.saturating_add(1);
                Err(ShelfFault::Missing)
            }
            Some(file) => {
                let count = copy_from(file, at, room);
                self.given = self.given.saturating_add(count as u64);
                Ok(count)
            }
        }
    }

    fn start(&mut self, name: &str) -> Result<(), WriteFailed>
        ensures started { OnOk result (file_in self.new.files name.now ≡ Some []) }
        ensures fine { OnOk result (self.new.write_faults ≡ self.old.write_faults) }
        ensures failed { OnErr result (GrewBy 1 self.old.write_faults self.new.write_faults) }
        ensures starts { GrewBy 1 self.old.starts self.new.starts }
        ensures appends { self.new.appends ≡ self.old.appends }
        ensures others { SameElsewhere name.now (file_in self.old.files) (file_in self.new.files) }
        ensures writes { OnlyWrites name.now (shelved self.old) (shelved self.new) }

        // It fails where its number is listed, and else only where memory runs out. The file stays then.
        ensures listed { Contains self.old.fail_start.items (next_count self.old.starts)
            → IsErr result × (self.new.wants ≡ self.old.wants) }
        ensures unlisted { OnErr result
            ((Contains self.old.fail_start.items (next_count self.old.starts) → ⊥)
            → GrewBy 1 self.old.wants self.new.wants) }
        ensures enough { OnOk result (self.new.wants ≡ self.old.wants) }
        ensures kept { OnErr result (file_in self.new.files name.now
            ≡ file_in self.old.files name.now) }
        ensures counted { self.new.starts ≡ next_count self.old.starts }
        ensures fetches { self.new.fetches ≡ self.old.fetches }
        ensures lists { KeepsLists self.old self.new }
    {
        self.starts = self.starts.saturating_add(1);
        if self.fail_start.contains(&self.starts) {
            self.write_faults = self.write_faults.saturating_add(1);
            return Err(WriteFailed);
        }
        if empty_file(self.alloc, &mut self.files, name).is_err() {
            self.wants = self.wants.saturating_add(1);
            self.write_faults = self.write_faults.saturating_add(1);
            return Err(WriteFailed);
        }
        Ok(())
    }

    fn append(&mut self, name: &str, piece: &[u8]) -> Result<(), WriteFailed>
        ensures appended { OnOk result (file_in self.new.files name.now
            ≡ Some (unwrap_or (file_in self.old.files name.now) [] ++ piece.now)) }
        ensures fine { OnOk result (self.new.write_faults ≡ self.old.write_faults) }
        ensures failed { OnErr result (GrewBy 1 self.old.write_faults self.new.write_faults) }
        ensures starts { self.new.starts ≡ self.old.starts }
        ensures appends { GrewBy 1 self.old.appends self.new.appends }
        ensures others { SameElsewhere name.now (file_in self.old.files) (file_in self.new.files) }
        ensures writes { OnlyWrites name.now (shelved self.old) (shelved self.new) }

        // It fails where its number is listed, and else only where memory runs out.
        ensures listed { Contains self.old.fail_append.items (next_count self.old.appends)
            → IsErr result }
        ensures unlisted { OnErr result
            ((Contains self.old.fail_append.items (next_count self.old.appends) → ⊥)
            → GrewBy 1 self.old.wants self.new.wants) }
        ensures enough { OnOk result (self.new.wants ≡ self.old.wants) }

        // A listed one has added half of the piece, and out of memory adds nothing.
        ensures half { OnErr result (AddsHalf piece.now name.now self.old self.new
            ⊎ AddsNothing name.now self.old self.new) }
        ensures whole { OnErr result
            ((Contains self.old.fail_append.items (next_count self.old.appends) → ⊥)
            → AddsNothing name.now self.old self.new) }
        ensures counted { self.new.appends ≡ next_count self.old.appends }
        ensures fetches { self.new.fetches ≡ self.old.fetches }
        ensures lists { KeepsLists self.old self.new }
    {
        self.appends = self.appends.saturating_add(1);
        if self.fail_append.contains(&self.appends) {
            self.write_faults = self.write_faults.saturating_add(1);
            let half = &piece[..piece.len() / 2];
            if add_to_file(self.alloc, &mut self.files, name, half).is_err() {
                self.wants = self.wants.saturating_add(1);
                return Err(WriteFailed);
            }
            return Err(WriteFailed);
        }
        if add_to_file(self.alloc, &mut self.files, name, piece).is_err() {
            self.wants = self.wants.saturating_add(1);
            self.write_faults = self.write_faults.saturating_add(1);
            return Err(WriteFailed);
        }
        Ok(())
    }
}

// Makes a file empty, or leaves all as it is.
fn empty_file(
    alloc: Global,
    files: &mut BTreeMap<String, Vec<u8>>,
    name: &str,
) -> Result<(), AllocError>
    ensures emptied { OnOk result (file_in files.new name.now ≡ Some []) }
    ensures others { SameElsewhere name.now (file_in files.old) (file_in files.new) }
    ensures err { OnErr result (file_in files.new name.now ≡ file_in files.old name.now) }
{
    let key = String::from_str(alloc, name)?;
    files.insert(key, Vec::new(alloc))?;
    Ok(())
}

// Adds bytes to a file, which may be absent, or leaves all as it is.
fn add_to_file(
    alloc: Global,
    files: &mut BTreeMap<String, Vec<u8>>,
    name: &str,
    piece: &[u8],
) -> Result<(), AllocError>
    ensures added { OnOk result (file_in files.new name.now
        ≡ Some (unwrap_or (file_in files.old name.now) [] ++ piece.now)) }
    ensures others { SameElsewhere name.now (file_in files.old) (file_in files.new) }
    ensures err { OnErr result (file_in files.new name.now ≡ file_in files.old name.now) }
{
    match files.get_mut(name) {
        Some(file) => file.extend_from_slice(piece),
        None => {
            let key = String::from_str(alloc, name)?;
            let file = Vec::from_slice(alloc, piece)?;
            files.insert(key, file)?;
            Ok(())
        }
    }
}

/// A sink in memory, which tells what was put.
///
/// The puts are counted from 1. A put fails where its number is listed, and where memory runs out,
/// which `wants` counts. Each count stands still at 2^64 - 1.
#[derive(Drop)]
pub struct MemorySink {
    /// What was put.
    pub bytes: Vec<u8>,
    /// The numbers of the puts that are to fail.
    pub fail_put: Vec<u64>,
    /// How many puts were made.
    pub puts: u64,
    /// How many puts have failed.
    pub faults: u64,
    /// How many puts found no memory.
    pub wants: u64,
}

impl MemorySink {
    ghost use Rattle.lot_io.specs.Shelves.{IsNewSink};

    /// The empty sink, of whose puts these fail. It takes no memory.
    pub fn new(alloc: Global, fail_put: Vec<u64>) -> MemorySink
        ensures fail_put { result.fail_put ≡ fail_put }
        ensures counts { IsNewSink result }
    {
        MemorySink {
            bytes: Vec::new(alloc),
            fail_put,
            puts: 0,
            faults: 0,
            wants: 0,
        }
    }
}

impl Sink for MemorySink {
    ghost shown = { printed };

    fn put(&mut self, piece: &[u8]) -> Result<(), SinkFailed>
        ensures put { OnOk result (self.new.bytes.items ≡ self.old.bytes.items ++ piece.now) }
        ensures part { OnErr result (AppendsSome piece.now self.old.bytes.items
            self.new.bytes.items) }
        ensures fine { OnOk result (self.new.faults ≡ self.old.faults) }
        ensures failed { OnErr result (GrewBy 1 self.old.faults self.new.faults) }
        ensures puts { GrewBy 1 self.old.puts self.new.puts }

        // It fails where its number is listed, and else only where memory runs out.
        ensures listed { Contains self.old.fail_put.items (next_count self.old.puts)
            → IsErr result }
        ensures unlisted { OnErr result
            ((Contains self.old.fail_put.items (next_count self.old.puts) → ⊥)
            → GrewBy 1 self.old.wants self.new.wants) }
        ensures enough { OnOk result (self.new.wants ≡ self.old.wants) }

        // A listed one has added half of the piece, and out of memory adds nothing.
        ensures half { OnErr result (PutsHalf piece.now self.old self.new
            ⊎ PutsNothing self.old self.new) }
        ensures whole { OnErr result ((Contains self.old.fail_put.items (next_count self.old.puts)
            → ⊥) → PutsNothing self.old self.new) }
        ensures counted { self.new.puts ≡ next_count self.old.puts }
        ensures list { self.new.fail_put ≡ self.old.fail_put }
    {
        self.puts = self.puts.saturating_add(1);
        if self.fail_put.contains(&self.puts) {
            self.faults = self.faults.saturating_add(1);
            if self
                .bytes
                .extend_from_slice(&piece[..piece.len() / 2])
                .is_err()
            {
                self.wants = self.wants.saturating_add(1);
                return Err(SinkFailed);
            }
            return Err(SinkFailed);
        }
        if self.bytes.extend_from_slice(piece).is_err() {
            self.wants = self.wants.saturating_add(1);
            self.faults = self.faults.saturating_add(1);
            return Err(SinkFailed);
        }
        Ok(())
    }
}

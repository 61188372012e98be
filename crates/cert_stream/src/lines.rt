// Lines of a file, which is fetched piece by piece.
ghost use Rattle.std.specs.Prelude.{◌≡◌, ◌≤◌, ◌<◌, ◌+◌, ℕ, List, [], false, true, length, take, slice_index, IsTrue, IfOk, IfErr, IfSome, IsNone, OnOk};
ghost use Rattle.lot_io.specs.Outside.{OnlyReads, Shelved};
ghost use Rattle.cert_lines.specs.Text.{HasNoFeed};
ghost use Rattle.cert_stream.specs.Reader.{GoesOn, IsBegun, IsBroken, IsCounted, IsFound, IsNext, IsSound, IsWhole, KeepsPiece, bytes_of, left_of, rest_in, text_from};

use crate::limits::MAX_BYTES;
use cert_lines::MAX_LINE;
use lot_io::{PIECE, ReadFault, Shelf, ShelfFault};
use std::alloc::{AllocError, Global};

/// One pass over a file, line by line. The shelf and the name of the file are passed at each call.
#[derive(Debug, Drop)]
pub struct LineReader {
    /// The last piece, whose bytes up to `end` are the file's.
    pub room: Vec<u8>,
    /// The first byte of it that wasn't given.
    pub start: usize,
    /// The end of its bytes.
    pub end: usize,
    /// How many bytes were fetched, which is where the next piece begins.
    pub at: u64,
    /// The line that was given last, without its line feed.
    pub line: Vec<u8>,
    /// The number of the next line, counted from 1.
    pub number: u64,
}

/// What comes next of a file.
#[derive(Clone, Copy, Debug, PartialEq, Eq)]
pub enum Next {
    /// A line, which the reader holds.
    Line,
    /// The last bytes, without a line feed.
    Unended,
    /// More than `MAX_LINE` bytes without a line feed.
    TooLong,
    /// Nothing.
    End,
}

/// What a piece had for the line.
#[derive(Clone, Copy, Debug, PartialEq, Eq)]
pub enum Found {
    /// The rest of the line, and its line feed.
    Feed,
    /// Bytes of the line, and no line feed.
    NoFeed,
    /// More bytes than a line may have.
    TooMany,
}

// How many bytes stand before the first line feed, or at all where there is none.
fn before_feed(bytes: &[u8]) -> usize
    ensures bound { result ≤ length bytes.now }
    ensures plain { HasNoFeed (take result bytes.now) }
    ensures feed { result < length bytes.now → slice_index bytes.now result ≡ 10 }
{
    for (at, byte) in bytes.iter().enumerate() {
        if *byte == b'\n' {
            return at;
        }
    }
    bytes.len()
}

impl LineReader {
    /// A pass that begins. It takes memory for one piece and one line.
    pub fn new(alloc: Global) -> Result<LineReader, AllocError>
        ensures sound { IfOk result IsSound }
        ensures at { IfOk result (λ r. r.at ≡ 0) }
        ensures number { IfOk result (λ r. r.number ≡ 1) }
        ensures rest { IfOk result (λ r. (shelf : Shelved) (name : List ℕ)
            → rest_in shelf name r ≡ bytes_of shelf name) }
    {
        Ok(LineReader {
            room: vec![in alloc; 0u8; PIECE]?,
            start: 0,
            end: 0,
            at: 0,
            line: Vec::with_capacity(alloc, MAX_LINE)?,
            number: 1,
        })
    }

    // Fetches the next piece in place of the last one, whose bytes were all given, and says how many
    // bytes it has: none only where the file ends.
    fn fill<S: Shelf>(&mut self, shelf: &mut S, name: &str) -> Result<usize, ReadFault>
        requires sound { IsSound self.old }
        requires given { self.old.start ≡ self.old.end }
        ensures sound { OnOk result (IsSound self.new) }
        ensures rest { OnOk result (IsTrue (S.shown shelf.old).told
            → rest_in (S.shown shelf.new) name.now self.new
            ≡ rest_in (S.shown shelf.old) name.now self.old) }
        ensures piece { IfOk result (λ n. (self.new.start ≡ 0) × (self.new.end ≡ n)) }
        ensures at { IfOk result (λ n. self.new.at ≡ self.old.at + n) }
        ensures ends { IfOk result (λ n. n ≡ 0 → IsTrue (S.shown shelf.old).told
            → IsWhole ((S.shown shelf.old).file name.now) self.new.at) }
        ensures line { OnOk result (self.new.line ≡ self.old.line) }
        ensures number { OnOk result (self.new.number ≡ self.old.number) }
        ensures goes_on { OnOk result (GoesOn name.now (S.shown shelf.old) (S.shown shelf.new)
            self.old self.new) }
        ensures broken { IfErr result (IsBroken name.now self.old.at (S.shown shelf.old)
            (S.shown shelf.new)) }
        ensures reads { OnlyReads (S.shown shelf.old) (S.shown shelf.new) }
    {
        let count = match shelf.fetch(name, self.at, &mut self.room) {
            Ok(count) => count,
            Err(ShelfFault::Missing) => return Err(ReadFault::Missing),
            Err(ShelfFault::Failed) => return Err(ReadFault::Failed),
        };
        if self.at + count as u64 > MAX_BYTES {
            return Err(ReadFault::TooLong);
        }
        self.start = 0;
        self.end = count;
        self.at += count as u64;
        Ok(count)
    }

    // Whether bytes are left, for which the next piece is fetched where the last one was given.
    fn has_more<S: Shelf>(&mut self, shelf: &mut S, name: &str) -> Result<bool, ReadFault>
        requires sound { IsSound self.old }
        ensures sound { OnOk result (IsSound self.new) }
        ensures rest { OnOk result (IsTrue (S.shown shelf.old).told
            → rest_in (S.shown shelf.new) name.now self.new
            ≡ rest_in (S.shown shelf.old) name.now self.old) }
        ensures more { IfOk result (λ more. more ≡ true → self.new.start < self.new.end) }
        ensures ends { IfOk result (λ more. more ≡ false → IsTrue (S.shown shelf.old).told
            → rest_in (S.shown shelf.new) name.now self.new ≡ []) }
        ensures left { OnOk result (left_of self.new ≡ left_of self.old) }
        ensures line { OnOk result (self.new.line ≡ self.old.line) }
        ensures number { OnOk result (self.new.number ≡ self.old.number) }
        ensures goes_on { OnOk result (GoesOn name.now (S.shown shelf.old) (S.shown shelf.new)
            self.old self.new) }
        ensures broken { IfErr result (IsBroken name.now self.old.at (S.shown shelf.old)
            (S.shown shelf.new)) }
        ensures reads { OnlyReads (S.shown shelf.old) (S.shown shelf.new) }
    {
        if self.start < self.end {
            return Ok(true);
        }
        Ok(self.fill(shelf, name)? > 0)
    }

    // Moves bytes of the piece to the line, up to the line feed, which is passed over.
    fn take_bytes(&mut self) -> Result<Found, AllocError>
        requires sound { IsSound self.old }
        ensures found { IfOk result (λ found. IsFound found self.old self.new) }
        ensures kept { OnOk result (KeepsPiece self.old self.new) }
        ensures sound { OnOk result (IsSound self.new) }
    {
        let bytes = &self.room[self.start..self.end];
        let count = before_feed(bytes);
        if self.line.len() + count > MAX_LINE {
            return Ok(Found::TooMany);
        }
        let ended = count < bytes.len();
        self.line.extend_from_slice(&bytes[..count])?;
        if ended {
            self.start += count + 1;
            return Ok(Found::Feed);
        }
        self.start = self.end;
        Ok(Found::NoFeed)
    }

    // Goes on with the line: None where its end wasn't met yet.
    fn go_on<S: Shelf>(&mut self, shelf: &mut S, name: &str) -> Result<Option<Next>, ReadFault>
        requires sound { IsSound self.old }
        requires begun { IsBegun self.old }
        ensures sound { OnOk result (IsSound self.new) }
        ensures next { IfOk result (λ step. IfSome step (λ next. IsTrue (S.shown shelf.old).told
            → IsNext next self.new.line.items (text_from (S.shown shelf.old) name.now self.old)
            (rest_in (S.shown shelf.new) name.now self.new))) }
        ensures counted { IfOk result (λ step.
            IfSome step (λ next. IsCounted next self.old self.new)) }
        ensures begun { IfOk result (λ step. IsNone step
            → IsBegun self.new × (length self.old.line.items < length self.new.line.items)) }
        ensures text { IfOk result (λ step. IsNone step → IsTrue (S.shown shelf.old).told
            → text_from (S.shown shelf.new) name.now self.new
            ≡ text_from (S.shown shelf.old) name.now self.old) }
        ensures kept { IfOk result (λ step. IsNone step
            → (self.new.number ≡ self.old.number) × (left_of self.new ≤ left_of self.old)) }
        ensures goes_on { OnOk result (GoesOn name.now (S.shown shelf.old) (S.shown shelf.new)
            self.old self.new) }
        ensures broken { IfErr result (IsBroken name.now self.old.at (S.shown shelf.old)
            (S.shown shelf.new)) }
        ensures reads { OnlyReads (S.shown shelf.old) (S.shown shelf.new) }
    {
        if !self.has_more(shelf, name)? {
            if self.line.is_empty() {
                return Ok(Some(Next::End));
            }
            return Ok(Some(Next::Unended));
        }
        match self.take_bytes()? {
            Found::Feed => {
                self.number += 1;
                Ok(Some(Next::Line))
            }
            Found::NoFeed => Ok(None),
            Found::TooMany => Ok(Some(Next::TooLong)),
        }
    }

    /// Reads on to the end of the next line, which is then in `line`.
    ///
    /// It fetches a piece where the last one was given, and takes no memory.
    pub fn next_line<S: Shelf>(&mut self, shelf: &mut S, name: &str) -> Result<Next, ReadFault>
        requires sound { IsSound self.old }
        ensures sound { OnOk result (IsSound self.new) }
        ensures next { IfOk result (λ next. IsTrue (S.shown shelf.old).told
            → IsNext next self.new.line.items (rest_in (S.shown shelf.old) name.now self.old)
            (rest_in (S.shown shelf.new) name.now self.new)) }
        ensures counted { IfOk result (λ next. IsCounted next self.old self.new) }
        ensures goes_on { OnOk result (GoesOn name.now (S.shown shelf.old) (S.shown shelf.new)
            self.old self.new) }
        ensures broken { IfErr result (IsBroken name.now self.old.at (S.shown shelf.old)
            (S.shown shelf.new)) }
        ensures reads { OnlyReads (S.shown shelf.old) (S.shown shelf.new) }
    {
        self.line.clear();
        loop {
            if let Some(next) = self.go_on(shelf, name)? {
                return Ok(next);
            }
        }
    }

    /// Fetches what is left of the file, and gives none of it.
    pub fn pass_over<S: Shelf>(&mut self, shelf: &mut S, name: &str) -> Result<(), ReadFault>
        requires sound { IsSound self.old }
        ensures sound { OnOk result (IsSound self.new) }
        ensures whole { OnOk result (IsTrue (S.shown shelf.old).told
            → IsWhole ((S.shown shelf.old).file name.now) self.new.at) }
        ensures goes_on { OnOk result (GoesOn name.now (S.shown shelf.old) (S.shown shelf.new)
            self.old self.new) }
        ensures broken { IfErr result (IsBroken name.now self.old.at (S.shown shelf.old)
            (S.shown shelf.new)) }
        ensures reads { OnlyReads (S.shown shelf.old) (S.shown shelf.new) }
    {
        self.start = self.end;
        while self.fill(shelf, name)? > 0 {
            self.start = self.end;
        }
        Ok(())
    }
}

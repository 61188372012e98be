// Whole files in and out.
ghost use Rattle.std.specs.Prelude.{◌≡◌, ◌≤◌, ◌<◌, ◌+◌, ◌^◌, ℕ, List, length, IsTrue, Some, None, IfOk, OnOk, OnErr, IsErrOf, vec_len};
ghost use Rattle.lot_io.specs.declared.files.ReadFault.TheVariants.{Memory};
ghost use Rattle.lot_io.specs.Outside.{RoseBy, GrewBy, OnlyReads, OnlyWrites, Finds, Misses, Fails, piece_size, pieces_of};

use crate::{Shelf, ShelfFault, WriteFailed};
use std::alloc::{AllocError, Global};
use std::fmt;
use thiserror::Error;

/// How many bytes of a file go over in one call.
pub const PIECE: usize = 65_536;

/// Why a file was not read.
#[derive(Clone, Copy, Debug, PartialEq, Eq, Error)]
pub enum ReadFault {
    /// There is no file of this name.
    Missing,
    /// A fetch failed.
    Failed,
    /// The file is longer than the limit.
    TooLong,
    /// Memory ran out.
    Memory,
}

// By hand: its text is promised, and a derived message has no contract.
impl fmt::Display for ReadFault {
    ghost use Rattle.lot_io.specs.Texts.{read_fault_text};

    ghost output = { λ fault. Some (read_fault_text fault) };

    fn fmt<W: fmt::Write>(&self, f: &mut fmt::Formatter<W>) -> fmt::Result {
        match self {
            ReadFault::Missing => f.write_str("there is no such file"),
            ReadFault::Failed => f.write_str("the file could not be read"),
            ReadFault::TooLong => f.write_str("the file is too long"),
            ReadFault::Memory => f.write_str("out of memory"),
        }
    }
}

impl From<AllocError> for ReadFault {
    ghost from_gives = { λ _ e. e ≡ Memory };

    fn from(_: AllocError) -> Self {
        ReadFault::Memory
    }
}

// Room for so many bytes.
fn room_of(alloc: Global, size: usize) -> Result<Vec<u8>, AllocError>
    ensures { IfOk result (λ room. vec_len room ≡ size) }
{
    vec![in alloc; 0u8; size]
}

/// The whole file, if it has at most so many bytes.
///
/// It is fetched in pieces of at most `PIECE` bytes, until a fetch gives none. No more than one
/// piece past the limit is asked for.
pub fn read_file<S: Shelf>(
    alloc: Global,
    shelf: &mut S,
    name: &str,
    most: u64,
) -> Result<Vec<u8>, ReadFault>
    requires { most < 2 ^ 63 }

    // What is read, and why it may not be. Out of memory stands in for no other refusal.
    ensures bytes { IfOk result (λ bytes. IsTrue (S.shown shelf.old).told
        → (S.shown shelf.old).file name.now ≡ Some bytes.items) }
    ensures within { IfOk result (λ bytes. length bytes.items ≤ most) }
    ensures given { IfOk result (λ bytes.
        GrewBy (length bytes.items) (S.shown shelf.old).given (S.shown shelf.new).given) }
    ensures found { OnOk result (Finds (S.shown shelf.old) (S.shown shelf.new)) }
    ensures missing { IsErrOf result ReadFault.Missing
        → Misses (S.shown shelf.old) (S.shown shelf.new) }
    ensures absent { IsErrOf result ReadFault.Missing → IsTrue (S.shown shelf.old).told
        → (S.shown shelf.old).file name.now ≡ None }
    ensures failed { IsErrOf result ReadFault.Failed
        → Fails (S.shown shelf.old) (S.shown shelf.new) }
    ensures too_much { IsErrOf result ReadFault.TooLong
        → RoseBy (most + 1) (S.shown shelf.old).given (S.shown shelf.new).given }
    ensures too_long { IsErrOf result ReadFault.TooLong → IsTrue (S.shown shelf.old).told
        → (bytes : List ℕ) × ((S.shown shelf.old).file name.now ≡ Some bytes)
        × (most < length bytes) }
    ensures long_found { IsErrOf result ReadFault.TooLong
        → Finds (S.shown shelf.old) (S.shown shelf.new) }
    ensures memory { IsErrOf result ReadFault.Memory
        → Finds (S.shown shelf.old) (S.shown shelf.new) }
    ensures memory_given { IsErrOf result ReadFault.Memory
        → (S.shown shelf.new).given ≤ (S.shown shelf.old).given + most }

    // Nothing is written, and what is fetched has a limit.
    ensures reads { OnlyReads (S.shown shelf.old) (S.shown shelf.new) }
    ensures given_bound { (S.shown shelf.new).given
        ≤ (S.shown shelf.old).given + most + piece_size }
{
    let mut bytes: Vec<u8> = Vec::new(alloc);
    let mut room = room_of(alloc, PIECE)?;
    loop {
        let got = match shelf.fetch(name, bytes.len() as u64, &mut room) {
            Ok(got) => got,
            Err(ShelfFault::Missing) => return Err(ReadFault::Missing),
            Err(ShelfFault::Failed) => return Err(ReadFault::Failed),
        };
        if got == 0 {
            return Ok(bytes);
        }
        if (bytes.len() + got) as u64 > most {
            return Err(ReadFault::TooLong);
        }
        bytes.extend_from_slice(&room[..got])?;
    }
}

/// Writes the whole file, and takes no memory of its own.
///
/// It starts the file, and then appends pieces of `PIECE` bytes and what is left, if anything is.
/// After a refusal the file may be absent or hold anything; all others stay.
pub fn write_file<S: Shelf>(shelf: &mut S, name: &str, bytes: &[u8]) -> Result<(), WriteFailed>
    ensures written { OnOk result (IsTrue (S.shown shelf.old).told
        → (S.shown shelf.new).file name.now ≡ Some bytes.now) }
    ensures fine { OnOk result ((S.shown shelf.new).write_faults
        ≡ (S.shown shelf.old).write_faults) }
    ensures failed { OnErr result (GrewBy 1 (S.shown shelf.old).write_faults
        (S.shown shelf.new).write_faults) }
    ensures writes { OnlyWrites name.now (S.shown shelf.old) (S.shown shelf.new) }

    // One start, and one append for each piece.
    ensures starts { GrewBy 1 (S.shown shelf.old).starts (S.shown shelf.new).starts }
    ensures appends { OnOk result (GrewBy (pieces_of (length bytes.now)) (S.shown shelf.old).appends
        (S.shown shelf.new).appends) }
    ensures appends_bound { (S.shown shelf.new).appends
        ≤ (S.shown shelf.old).appends + pieces_of (length bytes.now) }
{
    shelf.start(name)?;
    let mut rest = bytes;
    while !rest.is_empty() {
        let (piece, after) = rest.split_at(PIECE.min(rest.len()));
        shelf.append(name, piece)?;
        rest = after;
    }
    Ok(())
}

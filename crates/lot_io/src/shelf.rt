// Named files.
ghost use Rattle.std.specs.Prelude.{◌≡◌, ◌++◌, ◌≤◌, List, ℕ, [], length, IsTrue, Some, None, unwrap_or, IfOk, OnOk, OnErr, IsErrOf};
ghost use Rattle.lot_io.specs.Outside.{Shelved, GrewBy, Fetched, OnlyReads, OnlyWrites, Finds, Misses, Fails};

use std::fmt;
use thiserror::Error;

/// Why a fetch gave nothing.
#[derive(Clone, Copy, Debug, PartialEq, Eq, Error)]
pub enum ShelfFault {
    /// There is no file of this name.
    Missing,
    /// The file could not be read.
    Failed,
}

// By hand: its text is promised, and a derived message has no contract.
impl fmt::Display for ShelfFault {
    ghost use Rattle.lot_io.specs.Texts.{shelf_fault_text};

    ghost output = { λ fault. Some (shelf_fault_text fault) };

    fn fmt<W: fmt::Write>(&self, f: &mut fmt::Formatter<W>) -> fmt::Result {
        match self {
            ShelfFault::Missing => f.write_str("there is no such file"),
            ShelfFault::Failed => f.write_str("the file could not be read"),
        }
    }
}

/// A file could not be written.
#[derive(Clone, Copy, Debug, PartialEq, Eq, Error)]
pub struct WriteFailed;

// By hand: its text is promised, and a derived message has no contract.
impl fmt::Display for WriteFailed {
    ghost use Rattle.std.specs.Prelude.{codes};

    ghost output = { λ _. Some (codes "the file could not be written") };

    fn fmt<W: fmt::Write>(&self, f: &mut fmt::Formatter<W>) -> fmt::Result {
        f.write_str("the file could not be written")
    }
}

/// Named files, whose contents may be told or not.
///
/// What is said of contents holds where they are told; what is said of counts holds always. A call
/// that succeeds raises no count of faults or misses, and one that fails raises its own alone, by
/// one. Each count stands still at 2^64 - 1.
pub trait Shelf {
    /// What it shows: whether it tells, the files, and the counts.
    ghost shown: { Self → Shelved };

    /// Copies the file's bytes from a place on into the room, as many as the shelf likes, but none
    /// only where the room is empty or the file ends before that place.
    fn fetch(&mut self, name: &str, at: u64, room: &mut [u8]) -> Result<usize, ShelfFault>
        ensures bound { IfOk result (λ n. n ≤ length room.new) }
        ensures bytes { IfOk result (λ n. IsTrue (shown self.old).told
            → (bytes : List ℕ) × ((shown self.old).file name.now ≡ Some bytes)
            × Fetched bytes at n room.new) }
        ensures given { IfOk result (λ n. GrewBy n (shown self.old).given (shown self.new).given) }
        ensures not_given { OnErr result ((shown self.new).given ≡ (shown self.old).given) }
        ensures found { OnOk result (Finds (shown self.old) (shown self.new)) }
        ensures missing { IsErrOf result ShelfFault.Missing
            → Misses (shown self.old) (shown self.new) }
        ensures absent { IsErrOf result ShelfFault.Missing → IsTrue (shown self.old).told
            → (shown self.old).file name.now ≡ None }
        ensures failed { IsErrOf result ShelfFault.Failed
            → Fails (shown self.old) (shown self.new) }
        ensures reads { OnlyReads (shown self.old) (shown self.new) };

    /// Makes the file present and empty. After a refusal it may be absent or hold anything.
    fn start(&mut self, name: &str) -> Result<(), WriteFailed>
        ensures started { OnOk result (IsTrue (shown self.old).told
            → (shown self.new).file name.now ≡ Some []) }
        ensures fine { OnOk result ((shown self.new).write_faults ≡ (shown self.old).write_faults) }
        ensures failed { OnErr result (GrewBy 1 (shown self.old).write_faults
            (shown self.new).write_faults) }
        ensures starts { GrewBy 1 (shown self.old).starts (shown self.new).starts }
        ensures appends { (shown self.new).appends ≡ (shown self.old).appends }
        ensures writes { OnlyWrites name.now (shown self.old) (shown self.new) };

    /// Adds bytes at the end of the file, which need not be there. After a refusal it may be absent
    /// or hold anything.
    fn append(&mut self, name: &str, piece: &[u8]) -> Result<(), WriteFailed>
        ensures appended { OnOk result (IsTrue (shown self.old).told
            → (shown self.new).file name.now
            ≡ Some (unwrap_or ((shown self.old).file name.now) [] ++ piece.now)) }
        ensures fine { OnOk result ((shown self.new).write_faults ≡ (shown self.old).write_faults) }
        ensures failed { OnErr result (GrewBy 1 (shown self.old).write_faults
            (shown self.new).write_faults) }
        ensures starts { (shown self.new).starts ≡ (shown self.old).starts }
        ensures appends { GrewBy 1 (shown self.old).appends (shown self.new).appends }
        ensures writes { OnlyWrites name.now (shown self.old) (shown self.new) };
}

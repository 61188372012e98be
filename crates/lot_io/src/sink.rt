// A place to print to.
ghost use Rattle.std.specs.Prelude.{◌≡◌, ◌++◌, Some, IsTrue, OnOk, OnErr};
ghost use Rattle.lot_io.specs.Outside.{Printed, GrewBy, AppendsSome};

use std::fmt;
use thiserror::Error;

/// The text could not be printed.
#[derive(Clone, Copy, Debug, PartialEq, Eq, Error)]
pub struct SinkFailed;

// By hand: its text is promised, and a derived message has no contract.
impl fmt::Display for SinkFailed {
    ghost use Rattle.std.specs.Prelude.{codes};

    ghost output = { λ _. Some (codes "the text could not be printed") };

    fn fmt<W: fmt::Write>(&self, f: &mut fmt::Formatter<W>) -> fmt::Result {
        f.write_str("the text could not be printed")
    }
}

/// A place to print to, whose bytes may be told or not.
///
/// What is said of bytes holds where they are told; what is said of counts holds always. Each count
/// stands still at 2^64 - 1.
pub trait Sink {
    /// What it shows: whether it tells, the bytes, and the counts.
    ghost shown: { Self → Printed };

    /// Adds the whole piece at the end. After a refusal some of its first bytes may be added.
    fn put(&mut self, piece: &[u8]) -> Result<(), SinkFailed>
        ensures put { OnOk result (IsTrue (shown self.old).told
            → (shown self.new).bytes ≡ (shown self.old).bytes ++ piece.now) }
        ensures part { OnErr result (IsTrue (shown self.old).told
            → AppendsSome piece.now (shown self.old).bytes (shown self.new).bytes) }
        ensures fine { OnOk result ((shown self.new).faults ≡ (shown self.old).faults) }
        ensures failed { OnErr result (GrewBy 1 (shown self.old).faults (shown self.new).faults) }
        ensures puts { GrewBy 1 (shown self.old).puts (shown self.new).puts }
        ensures told { (shown self.new).told ≡ (shown self.old).told };
}

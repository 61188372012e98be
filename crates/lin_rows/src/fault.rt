// Why there is no row, of a model or of a cut.
ghost use Rattle.std.specs.Prelude.{◌≡◌};

use std::alloc::AllocError;
use thiserror::Error;

/// Why there is no row.
#[derive(Clone, Copy, Debug, PartialEq, Eq, Error)]
pub enum RowFault {
    /// The model has no such row.
    #[error("there is no such row")]
    NoSuchRow,
    /// Memory ran out.
    #[error("out of memory")]
    Memory,
}

impl From<AllocError> for RowFault {
    ghost use Rattle.lin_rows.specs.declared.fault.RowFault.TheVariants.{Memory};

    ghost from_gives = { λ _ e. e ≡ Memory };

    fn from(_: AllocError) -> RowFault {
        RowFault::Memory
    }
}

/// Why there is no row of a cut.
#[derive(Clone, Copy, Debug, PartialEq, Eq, Error)]
pub enum CutFault {
    /// A list has not an entry for each period, position or row.
    #[error("a list has another length")]
    Length,
    /// A number is past its limit.
    #[error("a number is past its limit")]
    TooLarge,
    /// The potentials rise over a block by more than the block costs. It is the first such block by its first
    /// position, then by its last one, then by its server.
    #[error("potentials rise by more than the block {first} to {last} costs from period {server}")]
    Potential {
        /// The first position.
        first: u32,
        /// The last position.
        last: u32,
        /// The period in which the block's units are made.
        server: u32,
    },
    /// A row that isn't equal is taken a negative number of times.
    #[error("an inequality is taken a negative number of times")]
    Sign,
    /// Memory ran out.
    #[error("out of memory")]
    Memory,
}

impl From<AllocError> for CutFault {
    ghost use Rattle.lin_rows.specs.declared.fault.CutFault.TheVariants.{Memory};

    ghost from_gives = { λ _ e. e ≡ Memory };

    fn from(_: AllocError) -> CutFault {
        CutFault::Memory
    }
}

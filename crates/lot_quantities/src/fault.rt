// Why bytes were not read as quantities.
ghost use Rattle.std.specs.Prelude.{Some};
ghost use Rattle.lot_quantities.specs.Texts.{quantity_fault_text};

use std::alloc::{AllocError, AllocFailed};
use std::fmt;
use thiserror::Error;

/// Why bytes were not read as quantities. Records after the first and columns are counted from 1.
#[derive(Clone, Copy, Debug, PartialEq, Eq, Error)]
pub enum QuantityFault {
    /// The first record doesn't name the columns `item`, `period` and `make` once each, or names `setup` twice.
    Header,
    /// A record is absent, or one follows the last.
    RowCount,
    /// A record hasn't as many fields as the first one, or isn't that of its item and period.
    Row(u64),
    /// The quantity or the setup in this record and column is no whole number of 64 bits.
    Number(u64, u64),
    /// Memory ran out.
    Memory,
}

impl From<AllocError> for QuantityFault {
    ghost use Rattle.std.specs.Prelude.{◌≡◌};
    ghost use Rattle.lot_quantities.specs.declared.fault.QuantityFault.TheVariants.{Memory};

    ghost from_gives = { λ _ e. e ≡ Memory };

    fn from(_: AllocError) -> QuantityFault {
        QuantityFault::Memory
    }
}

impl<T: Drop> From<AllocFailed<T>> for QuantityFault {
    ghost use Rattle.std.specs.Prelude.{◌≡◌};
    ghost use Rattle.lot_quantities.specs.declared.fault.QuantityFault.TheVariants.{Memory};

    ghost from_gives = { λ _ e. e ≡ Memory };

    fn from(_: AllocFailed<T>) -> QuantityFault {
        QuantityFault::Memory
    }
}

// By hand: its text is promised, and a derived message has no contract.
impl fmt::Display for QuantityFault {
    ghost output = { λ fault. Some (quantity_fault_text fault) };

    fn fmt<W: fmt::Write>(&self, f: &mut fmt::Formatter<W>) -> fmt::Result {
        match self {
            QuantityFault::Header => f.write_str("plan header"),
            QuantityFault::RowCount => f.write_str("plan count"),
            QuantityFault::Row(record) => write!(f, "plan row {record}"),
            QuantityFault::Number(record, column) => write!(f, "plan number {record} {column}"),
            QuantityFault::Memory => f.write_str("out of memory"),
        }
    }
}

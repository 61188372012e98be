// Why bytes were not read as slots.
ghost use Rattle.std.specs.Prelude.{Some};
ghost use Rattle.lot_schedule.specs.Texts.{slot_fault_text};

use std::alloc::{AllocError, AllocFailed};
use std::fmt;
use thiserror::Error;

/// Why bytes were not read as slots. Records after the header are counted from 1.
#[derive(Clone, Copy, Debug, PartialEq, Eq, Error)]
pub enum SlotFault {
    /// The first record isn't the header.
    Header,
    /// A record hasn't five fields, or a name, the period or a time isn't one.
    Row(u64),
    /// Memory ran out.
    Memory,
}

impl From<AllocError> for SlotFault {
    ghost use Rattle.std.specs.Prelude.{◌≡◌};
    ghost use Rattle.lot_schedule.specs.declared.fault.SlotFault.TheVariants.{Memory};

    ghost from_gives = { λ _ e. e ≡ Memory };

    fn from(_: AllocError) -> SlotFault {
        SlotFault::Memory
    }
}

impl<T: Drop> From<AllocFailed<T>> for SlotFault {
    ghost use Rattle.std.specs.Prelude.{◌≡◌};
    ghost use Rattle.lot_schedule.specs.declared.fault.SlotFault.TheVariants.{Memory};

    ghost from_gives = { λ _ e. e ≡ Memory };

    fn from(_: AllocFailed<T>) -> SlotFault {
        SlotFault::Memory
    }
}

// By hand: its text is promised, and a derived message has no contract.
impl fmt::Display for SlotFault {
    ghost output = { λ fault. Some (slot_fault_text fault) };

    fn fmt<W: fmt::Write>(&self, f: &mut fmt::Formatter<W>) -> fmt::Result {
        match self {
            SlotFault::Header => f.write_str("slot header"),
            SlotFault::Row(record) => write!(f, "slot row {record}"),
            SlotFault::Memory => f.write_str("out of memory"),
        }
    }
}

// Why bytes were not read as a plan.
ghost use Rattle.std.specs.Prelude.{◌≡◌, Some};
ghost use Rattle.plan_file.specs.Records.{field_number};
ghost use Rattle.plan_file.specs.Texts.{plan_fault_text};

use std::alloc::{AllocError, AllocFailed};
use std::fmt;
use thiserror::Error;

/// A field of a record that holds a number.
#[derive(Clone, Copy, Debug, PartialEq, Eq)]
pub enum NumberField {
    /// Units made.
    Make,
    /// The setup, 0 or 1.
    Setup,
    /// Units in stock at the end of the period.
    Stock,
    /// Units owed at the end of the period.
    Backlog,
}

impl NumberField {
    // Its number in the record, counted from 1.
    fn number(self) -> u32
        ensures { result ≡ field_number self }
    {
        match self {
            NumberField::Make => 3,
            NumberField::Setup => 4,
            NumberField::Stock => 5,
            NumberField::Backlog => 6,
        }
    }
}

/// Why bytes were not read as a plan. Records after the header are counted from 1.
#[derive(Clone, Copy, Debug, PartialEq, Eq, Error)]
pub enum PlanFault {
    /// The first record isn't the header.
    Header,
    /// A record is absent, or one follows the last.
    RowCount,
    /// A record hasn't six fields, or isn't that of its item and period.
    Row(u64),
    /// A field of a record is no whole number of 64 bits.
    Number(u64, NumberField),
    /// Memory ran out.
    Memory,
}

impl From<AllocError> for PlanFault {
    ghost use Rattle.std.specs.Prelude.{◌≡◌};
    ghost use Rattle.plan_file.specs.declared.fault.PlanFault.TheVariants.{Memory};

    ghost from_gives = { λ _ e. e ≡ Memory };

    fn from(_: AllocError) -> PlanFault {
        PlanFault::Memory
    }
}

impl<T: Drop> From<AllocFailed<T>> for PlanFault {
    ghost use Rattle.std.specs.Prelude.{◌≡◌};
    ghost use Rattle.plan_file.specs.declared.fault.PlanFault.TheVariants.{Memory};

    ghost from_gives = { λ _ e. e ≡ Memory };

    fn from(_: AllocFailed<T>) -> PlanFault {
        PlanFault::Memory
    }
}

// By hand: its text is promised, and a derived message has no contract.
impl fmt::Display for PlanFault {
    ghost output = { λ fault. Some (plan_fault_text fault) };

    fn fmt<W: fmt::Write>(&self, f: &mut fmt::Formatter<W>) -> fmt::Result {
        match self {
            PlanFault::Header => f.write_str("plan header"),
            PlanFault::RowCount => f.write_str("plan count"),
            PlanFault::Row(record) => write!(f, "plan row {record}"),
            PlanFault::Number(record, field) => {
                let number = field.number();
                write!(f, "plan number {record} {number}")
            }
            PlanFault::Memory => f.write_str("out of memory"),
        }
    }
}

// What is wrong with slots.
ghost use Rattle.std.specs.Prelude.{Some};
ghost use Rattle.lot_schedule.specs.Texts.{slot_broken_text};

use std::fmt;
use thiserror::Error;

/// What is wrong first with slots that are no schedule: the first slot with a fault, by the number of its row,
/// counted from 1, and of its faults the first in this order; or else the first lot without a slot.
#[derive(Clone, Copy, Debug, PartialEq, Eq, Error)]
pub enum SlotBroken {
    /// The lot of a slot takes no time on the resource, or has an earlier slot.
    Extra(u64),
    /// A slot doesn't last as long as its lot.
    Length(u64),
    /// A slot ends after the capacity.
    Past(u64),
    /// A slot overlaps an earlier one of its resource and period.
    Overlap(u64),
    /// A lot that takes time has no slot: the first by these.
    Absent {
        /// The resource.
        resource: u32,
        /// The period.
        period: u32,
        /// The item.
        item: u32,
    },
}

// By hand: its text is promised, and a derived message has no contract.
impl fmt::Display for SlotBroken {
    ghost output = { λ broken. Some (slot_broken_text broken) };

    fn fmt<W: fmt::Write>(&self, f: &mut fmt::Formatter<W>) -> fmt::Result {
        match self {
            SlotBroken::Extra(row) => write!(f, "rejected slot 1 row {row}"),
            SlotBroken::Length(row) => write!(f, "rejected slot 2 row {row}"),
            SlotBroken::Past(row) => write!(f, "rejected slot 3 row {row}"),
            SlotBroken::Overlap(row) => write!(f, "rejected slot 4 row {row}"),
            SlotBroken::Absent {
                resource,
                period,
                item,
            } => write!(
                f,
                "rejected slot 5 resource {resource} period {period} item {item}"
            ),
        }
    }
}

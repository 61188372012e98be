//! Schedules: the lots of a plan as times on each resource, one after the other within each
//! period.
//!
//! `schedule` lays the lots of a feasible plan shortest first, so that no schedule has a smaller
//! sum of ends on any resource in any period. `write_schedule` gives the text of slots, and
//! `read_schedule` the slots whose text bytes are, or the first fault in the order of the file.
//! `check_schedule` says whether any slots are a schedule of a plan, or what is wrong first, by
//! name and place.
//!
//! Family: plans. It stands on `plan_rules`, whose feasible plans it lays, on `csv_records` for
//! the records of a text, on `plan_file` for the longest file that is read, and on `itoa` for
//! digits.
#![tactic(auto)]

mod absent;
mod broken;
mod checking;
mod fault;
mod header;
mod laws;
mod laying;
mod lengths;
mod lots;
mod reading;
mod rows;
mod slot;
mod writing;

pub use broken::SlotBroken;
pub use checking::check_schedule;
pub use fault::SlotFault;
pub use laws::{
    records_mean_one_thing, records_mean_slots, same_plans_same_schedules, slots_are_judged,
    slots_are_one_thing,
};
pub use laying::schedule;
pub use reading::read_schedule;
pub use slot::Slot;
pub use writing::write_schedule;

//! What every feasible plan must have started of an item, and the largest lots that it can start.
//!
//! Family: single items. It stands on `lot_sizing` and `lot_model`; `reduced_groups` and `late_starts` stand on it.
//!
//! A lot arrives its lead time after its start. So what must have arrived of an item by some period, for its
//! demand, its required end stock and the items that it goes into, must have been started the lead time before.
//! `MustStart` has that quantity for each item and the end of each period, with lead times of any length, opening
//! stocks and required end stocks; an item that may be late is counted at the last period alone. For items without
//! lead times and backlog it is never below the net demand of the echelon (`must_start_holds`).
//! `largest_lot` gives the largest quantity for which a setup in a period has the time, if nothing else is made.
#![tactic(auto)]

mod arrivals;
mod laws;
mod lots;
mod table;
#[cfg(test)]
mod tests;

pub use laws::{lots_hold, must_start_holds};
pub use lots::largest_lot;
pub use table::MustStart;

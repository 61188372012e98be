//! What would have to be started of each item if nothing were late, how much less a feasible plan may have started,
//! and what shares of such shortfalls charge on its backlogs.
//!
//! Family: single items. It stands on `lot_sizing`, `lot_model` and `must_start`; `reduced_groups` stands on it.
//!
//! `OnTime` has the quantity of each item that has been started by the end of each period if nothing is late, with
//! lead times of any length, opening stocks and required end stocks. A feasible plan may have started less: by what
//! it owes of the item when its lots arrive, and by how much less it has started by then of the items that the item
//! goes into (`late_starts_hold`). So a shortfall is a sum of backlogs. `charges` turns shares of shortfalls into
//! charges on backlogs that cost the same (`charges_cover`), which pays for floors under what items cost whose
//! quantities may fall short at these shares (`late_items_bound`). `least_late_price` finds the greatest such floor of
//! one item.
#![tactic(auto)]

mod arrivals;
mod charging;
mod laws;
mod lots;
mod pricing;
mod table;
#[cfg(test)]
mod tests;

pub use arrivals::arrival_period;
pub use charging::{charges, have_cells};
pub use laws::{charges_cover, late_items_bound, late_starts_hold, on_time_is_one};
pub use lots::LateLot;
pub use pricing::{is_rising, least_late_price};
pub use table::OnTime;

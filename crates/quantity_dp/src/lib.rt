//! The cheapest way to start what must be started of one item, in whole quantities with largest lots, where what falls
//! short of what is asked is paid by the unit.
//!
//! Family: single items. It stands on `lot_sizing` and `must_start`; `reduced_groups` stands on it.
//!
//! A `LotPeriod` has for one period the price of a setup and of a unit, what must have been started by its end, what is
//! asked to have been and the price of each unit that falls short of it, and the largest lot. `least_price` gives the
//! least price of quantities that start what they must within the largest lots, or none exactly where no quantities do.
//! `find_fault` names the first period that is past the limits within which it answers.
//!
//! It is a recursion over whole quantities: the least price of having started a quantity by the end of a period goes
//! by the least prices of a window of quantities at the end of the period before, no longer than the largest lot, and
//! by what the quantity lacks of what is asked. The least of a window is found by a queue of prices that rise, so the
//! time is in the number of periods times that of quantities. Quantities past all that must be started or is asked
//! never pay. The answer is the least price of the last period's quantities.
#![tactic(auto)]

mod laws;
mod limits;
mod lots;
mod table;
#[cfg(test)]
mod tests;
mod window;

pub use laws::plans_are_choices;
pub use limits::{LotsFault, MAX_ENTRIES, MAX_PRICE, find_fault};
pub use lots::LotPeriod;
pub use table::least_price;

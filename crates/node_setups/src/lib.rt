//! What the bounds of a path say of setups.
//!
//! Family: search. It stands on `lin_rows` for the bounds of a path, and on `lot_model` for its items and periods;
//! `price_items`, `price_rounds` and `price_leaves` stand on it.
//!
//! `fixed_setups` reads what a path says of each setup: that it is at least 1, at most 0, or nothing, with the number of the
//! bound that says so. `Fixed::get` gives it, `Fixed::line` that of an item's periods, and `Fixed::hold` says another thing
//! of one setup, so that a search can try it. `specs/Holding` says what a path says.
#![tactic(auto)]

mod fixed;

pub use fixed::{Fixed, Held, fixed_setups};

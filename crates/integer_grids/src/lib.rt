//! Whole numbers with a sign, and grids of them by line and period, in which prices and averages are counted.
//!
//! `IntegerGrid` has a number for each line and period: a line is an item or a resource. `numbers` has sums, products and rates
//! that stay at the largest or the least number where they don't fit.
//!
//! Family: plugins. It stands on nothing; `price_items`, `price_rounds` and `heur_lags` count in it.
//!
//! Nothing is claimed of what is counted. What is proved is that the calls are safe and return.
#![tactic(auto)]

mod grid;
pub mod numbers;

pub use grid::{IntegerGrid, clear};

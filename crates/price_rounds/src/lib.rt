//! Rounds that improve prices of capacity and of stock.
//!
//! Family: search. It stands on `price_items`, which plans each item by itself at prices, and on `node_setups` for what a
//! path says of setups; `price_leaves` makes leaves of the prices that are found.
//!
//! `Rounds` improve prices (a volume method: Barahona and Anbil 2000), and give the average of the single-item plans, by
//! which a search may choose where it branches.
//!
//! All of it is a proposal: nothing is claimed of what prices say. What is proved is that the calls are safe and return.
#![tactic(auto)]

mod groups;
mod lots;
mod rounds;
mod slopes;
mod steps;
mod tuning;
mod valuing;

pub use lots::Average;
pub use rounds::{GROWTH_PARTS, Improved, Reached, Rounds};
pub use tuning::tune_openings;

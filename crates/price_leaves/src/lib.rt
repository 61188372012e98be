//! Strong proposals for leaves, from prices of capacity and of stock.
//!
//! Family: plugins. It stands on `price_rounds`, which finds the prices, on `node_setups` for what a path says of setups, and
//! on `cert_lines`, whose cuts and parts it makes; `node_branching` and `price_plugin` stand on it.
//!
//! With a price for time and a price for stock each item is planned by itself, and what the items then cost, less what the
//! time is worth, bounds the cost of every plan (Lagrangean relaxation; Trigeiro, Thomas and McClain 1989). A block cut of
//! each item and so many times each capacity, balance and end stock is a leaf that says it.
//!
//! `priced_leaf` makes the cuts and the parts of the leaf of prices, and `dropped_leaf` those of a leaf which says that
//! there is no plan.
//!
//! All of it is a proposal: who takes it tests the cuts and the leaf, and nothing is claimed here of what the leaf says.
//! What is proved is that the calls are safe and return, and that a proposal's lines are within the limits of certificates.
#![tactic(auto)]

mod cutting;
mod grouped;
mod leaf;
mod writable;

pub use grouped::{Grouped, dropped_grouped_leaf, grouped_leaf};
pub use integer_grids::numbers::ONE;
pub use leaf::{Priced, dropped_leaf, priced_leaf};
pub use node_setups::{Fixed, Held, fixed_setups};
pub use price_items::{DualPrices, NodePricing, Pricing, split_prices};
pub use price_rounds::{Average, GROWTH_PARTS, Improved, Reached, Rounds, tune_openings};

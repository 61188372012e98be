//! Items planned by themselves, at prices of capacity and of stock.
//!
//! Family: search. It stands on `lot_model` and `echelon` for what is asked of each item, and on `node_setups` for what a
//! path says of setups; `price_rounds` improves the prices, and `price_leaves` makes leaves of them.
//!
//! What couples the items of a plan is that resources have so much time, and that items go into each other. With a price
//! for time and a price for stock each item can be planned by itself, by the recursion over servers (Pochet and Wolsey),
//! and what the items then cost, less what the time is worth, bounds the cost of every plan (Lagrangean relaxation;
//! Trigeiro, Thomas and McClain 1989).
//!
//! `Pricing` has what is needed of an instance, and `split_prices` the first prices. `Costs` has what an item costs at
//! prices where some setups are given, and `Serving` plans it.
//!
//! Nothing is claimed of what prices say. What is proved is that the calls are safe and return.
#![tactic(auto)]

mod costs;
mod prices;
mod pricing;
mod quick;
mod recursion;
mod settling;
mod shares;
mod splitting;

pub use costs::Costs;
pub use prices::DualPrices;
pub use pricing::{Item, NodePricing, Pricing};
pub use recursion::{Served, Serving};
pub use settling::settle;
pub use shares::Loads;
pub use splitting::split_prices;

//! Items in whole quantities, with largest lots, planned quickly at prices of setups and units.
//!
//! Family: plugins. It stands on no other crate.
//!
//! What must have been started of an item by the end of each period has been, a setup makes no more than the largest lot,
//! and units that fall short of what is asked have a price (lot sizing with capacities that vary over time; Florian,
//! Lenstra and Rinnooy Kan 1980). `quantity_dp` proves the least price of such an item and gives no plan; here a cheapest
//! plan is given as well, as fast as rounds of prices need it, and nothing is proved of it.
//!
//! `Terms` has what lots cost and what is asked. `QuantityPlans::new` makes tables without memory; `plan` finds the least
//! cost, and a plan at that cost, of which `made`, `setups` and `short` give what is made, set up and short.
//!
//! Nothing is claimed of costs and plans. What is proved is that the calls are safe and return.
#![tactic(auto)]

mod bands;
mod numbers;
mod plans;
mod rows;
mod terms;
#[cfg(test)]
mod tests;
mod tracing;

pub use numbers::NONE;
pub use plans::QuantityPlans;
pub use terms::Terms;

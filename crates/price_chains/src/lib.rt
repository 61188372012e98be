//! Chains of one, two or three items, planned quickly at prices of setups and units.
//!
//! Family: plugins. It stands on no other crate.
//!
//! A chain is a list of levels, the lowest first, each of which goes into the next one: one setup of a part may serve
//! several lots of what it goes into (multi-level uncapacitated lot sizing in series; Zangwill 1969, Pochet and Wolsey's
//! book, chapter 13). `chain_dp` proves the least cost of such a chain and gives no plan; here a cheapest plan is given as
//! well, as fast as rounds of prices need it, and nothing is proved of it.
//!
//! `Level` has what lots of an item cost and what is asked of it. `ChainPlans::new` makes tables without memory;
//! `plan_one`, `plan_two` and `plan_three` find the least cost of so many levels, and a plan at that cost; `made` and
//! `setups` give the plan of each level. `plan_late` plans one level whose units may fall short at a price (Zangwill 1966), and
//! `short` gives what falls short.
//!
//! Nothing is claimed of costs and plans. What is proved is that the calls are safe and return.
#![tactic(auto)]

mod late;
mod level;
mod numbers;
mod plans;
mod quantities;
mod states;
mod stretches;
#[cfg(test)]
mod tests;
mod walk;

pub use level::{Level, NONE};
pub use plans::ChainPlans;

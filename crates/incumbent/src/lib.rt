//! The incumbent: the best plan that a search knows, of those within its ranges.
//!
//! `best_to_begin` gives the best plan to begin with: of one that was given and of the own-period plan. `keep_within` keeps a plan
//! that was found where it lies within the ranges and costs less than the best so far; `best_cost` and `best_plan` give that
//! one's cost and the plan alone. `plan_at` gives a cheapest plan with the least quantities and setups of a list of ranges.
//!
//! Family: search. It stands on `node_domains` for the ranges, on `own_plan`, which makes the own-period plan, on `plan_rules`,
//! which judges plans, on the costs of `tree_search`, and on `cert_trees` and `cert_meaning`, by whose definitions a plan is
//! a cheapest one within ranges; `search_plugins` and `branching` stand on it.
#![tactic(auto)]

mod completing;
mod keeping;

pub use completing::plan_at;
pub use keeping::{best_cost, best_plan, best_to_begin, keep_within};

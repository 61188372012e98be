//! Feasible plans that are built once, without changing them after.
//!
//! `wanted_apart` and `wanted_spread` give setups to want: those of each item served most cheaply by itself, and those of each
//! item in every so many periods. `built_plan` makes a plan backward by periods under the capacities, with setups where they are
//! wanted, if it comes to one. `net_demands` gives what must be made of an item for each period, with the lots of the items that
//! it goes into.
//!
//! Family: plugins. It stands on `lot_model`, on `own_plan`, as much as whose plan is made of each item, on `plan_rules`, which
//! judges what comes out, and on `wagner_whitin`; `heur_items`, `first_plans` and `heur_setup_lps` stand on it.
#![tactic(auto)]

mod building;
mod construction;
mod lots;
mod nets;
mod patterns;
mod prices;
mod relief;

pub use building::built_plan;
pub use nets::net_demands;
pub use patterns::{PARTS, wanted_apart, wanted_spread};

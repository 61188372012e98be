//! Feasible plans that are made without a search.
//!
//! `candidates` gives a list of feasible plans with the own-period plan among them, if it is feasible; who begins with the
//! cheapest of them has a plan wherever there is a feasible own-period plan, and one that costs no more.
//! `improved` makes the lots of one item after the other anew, changes the wanted setups of a plan one after the other, and
//! keeps what is cheaper; `improved_by_families` does so with one family of items after the other. The plans that are built
//! once, `own_period_plan` and `built_plan`, are passed on from `own_plan` and `heur_build`.
//!
//! Family: plugins. It stands on `own_plan` and `heur_build`, which build plans, on `heur_items`, which makes an item's lots anew,
//! on `plan_rules`, which judges what comes out, on `work_clock` for the time at which improving is to end, and on `rand_pcg`; `heur_plugin`
//! stands on it.
#![tactic(auto)]

mod by_families;
mod families;
mod improving;
mod kicks;
mod listing;
mod trials;

pub use by_families::improved_by_families;
pub use heur_build::built_plan;
pub use improving::improved;
pub use listing::{BUILDING_WORK, candidates, tries_for};
pub use own_plan::{own_period_is_one, own_period_plan};
pub use plan_rules::{Grid, Planned};

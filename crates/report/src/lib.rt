//! Texts for people and other programs: the summary of a plan, and models that are drawn from a seed.
//!
//! `summary` gives what a feasible plan costs, with the parts of each item, and how each resource is used, as
//! one line of JSON. `parts_add_up` is the law that the parts of all items add up to the plan's cost.
//!
//! `generate` gives the text of a model whose numbers are drawn from a seed.
//!
//! Family: commands. It stands on `plan_rules`, `instance_reader` and `own_plan`, by whose definitions the text is a
//! valid model with a feasible plan; `lotplan` stands on it.
#![tactic(auto)]

mod generating;
mod generating_draws;
mod generating_tables;
mod summing;

pub use generating::{GenFault, generate};
pub use summing::{parts_add_up, summary};

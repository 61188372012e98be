//! The lots of one item, made anew while those of all other items stay.
//!
//! What the others leave bounds an item's lots: the time of the resources, and the stocks of its components. What is needed
//! of it is its demand, what goes into others and the stock required in the end. The cheapest lots under these bounds, each
//! for whole periods one after the other, are found by a recursion over blocks of periods. `improve_by_items` makes them for
//! one item after the other, and keeps what is cheaper. `copy_grid` copies the quantities or setups of a plan.
//!
//! Family: plugins. It stands on `plan_rules`, which judges what comes out, on `own_plan`, by whose definitions a plan is a
//! feasible one, and on `heur_build`, which says what must be made of an item; `first_plans` and `heur_setup_lps` stand on it.
#![tactic(auto)]

mod by_items;
mod copying;
mod task;
mod ways;

pub use by_items::improve_by_items;
pub use copying::copy_grid;

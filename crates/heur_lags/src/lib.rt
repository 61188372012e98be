//! Plans with lead times and bounds on lots.
//!
//! A plan is changed step by step: the lots of one item after the other are made anew by a recursion over what has been made so
//! far, which knows lead times, least and largest lots, the time that the other items leave, and what the components allow.
//! What breaks a rule costs a penalty until nothing does. Which items are made anew next is drawn at random (a large
//! neighbourhood search: Shaw 1998).
//!
//! `lagged_plan` begins with no lots at all, `repaired` with lots that may break rules, and `improved_lagged` with those of a plan.
//! `plain_model` is a model of plain items whose plans are such lots, and `has_free_lots` says where they are the plans themselves.
//!
//! Family: plugins. It stands on `lot_model`, on `plan_rules`, which judges what comes out, on `own_plan`, by whose definitions a
//! plan is a feasible one, on `integer_grids` for grids of numbers with a sign, and on `rand_pcg`; `heur_plugin` stands on it.
#![tactic(auto)]

mod drawing;
mod levels;
mod plain;
mod planning;
mod recursion;
mod remaking;
mod shop;
mod standing;
mod taking;
mod troubles;
mod walking;
mod windows;
mod worth;

pub use plain::{has_free_lots, plain_model};
pub use planning::{improved_lagged, lagged_plan, repaired};

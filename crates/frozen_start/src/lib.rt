//! The frozen start of a plan: whether it can be kept, what it costs, and what its later periods are.
//!
//! Family: plans. It stands on `lot_sizing`, `lot_model` and `plan_rules`; `replan` stands on it.
//!
//! A plan is followed up to some period, and the later ones are planned anew. `specs/Starts` says which plans
//! agree with a start, when a start stands and what is spent then; `specs/Rests` which problem the later periods
//! are, and how a plan of them is put behind the start. The laws say that nothing is lost by planning only
//! the rest: a best plan of it, behind the start, is a best one of those that agree with the start.
//!
//! `start_stands` and `spent` are these in code, and `flows_after` has the least stocks and backlogs that a start
//! ends with. No call takes memory.
#![tactic(auto)]

mod flows;
mod laws;
mod spending;
mod standing;

pub use flows::{Flows, flows_after};
pub use laws::{cuts_are_feasible, joins_are_feasible, rests_decide, rests_keep, worked_starts};
pub use spending::spent;
pub use standing::start_stands;

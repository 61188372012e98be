//! Plans as the program holds them, and their rules.
//!
//! A `Grid` has one number for each item and period. A `Plan` has four of them: quantities, setups,
//! stocks and backlogs. `judge` answers what a feasible plan costs, or the first rule that a plan breaks
//! and where. `complete` gives the stocks and backlogs that go best with quantities and setups. Contracts
//! see a grid as its numbers by item and period, and a plan as the plan of the definitions.
//!
//! Family: plans. It stands on `lot_sizing` and `lot_model`; `plan_file`, `existence`, the checkers, the
//! search, `report` and `lotplan` stand on it.
#![tactic(auto)]

mod broken;
mod completing;
mod grid;
mod judging;
mod laws;
mod plan;
mod rules;
mod sums;

pub use broken::Broken;
pub use completing::{complete, complete_at_cost};
pub use grid::Grid;
pub use judging::judge;
pub use laws::judgement_is_one;
pub use plan::{Plan, Planned};
pub use sums::{CostParts, arriving, cost_parts, time_used, used_up};

//! Plans from linear programs whose setups are given, all of them or some.
//!
//! Family: plugins. It stands on `lp_relaxation`, which names the rows, on `tableau`, which solves the programs, on
//! `plan_rules`, which judges what comes out, on `own_plan`, by whose definitions a plan is a feasible one, on
//! `heur_items`, which copies grids, on `work_clock` for the time at which they end early, and on `rand_pcg`; `heur_plugin` stands on it.
//!
//! Where all setups are given, what is left of the linear model is a program of quantities, stocks and backlogs. It is small,
//! and solved exactly. `planned` makes a plan of its least point, whose quantities are rounded up along their sums where
//! they aren't whole. `walked` goes from a plan to a cheaper one by changes of its setups, each of which is judged by such a
//! program. `plunged` looks for a plan where none is known: setups are given one after the other, depth first, each first as
//! the program of those before it has it nearly; a setup that isn't given yet stays a column.
//!
//! Each plan is proved to be feasible and to cost what is said. Nothing is claimed of how cheap it is.
#![tactic(auto)]

mod columns;
mod limits;
mod lots;
mod planning;
mod plunging;
mod program;
mod reducing;
mod walking;

pub use limits::{MAX_GRID_CELLS, MAX_PROGRAM_CELLS};
pub use lp_relaxation::MAX_PIVOTS;
pub use planning::planned;
pub use plunging::plunged;
pub use walking::walked;

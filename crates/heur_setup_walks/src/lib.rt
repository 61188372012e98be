//! Plans by walks over setups, whose costs are those of linear programs in fixed point.
//!
//! Where all setups are given, a program in the lots alone says what the cheapest lots for them cost: stocks are put in by their
//! balances, and the plan without lots is the dual simplex's first point. `walked_setups` goes from setups to setups by such costs,
//! and rounds the lots of the best ones to plans.
//!
//! Family: plugins. It stands on `lot_model`, on `plan_rules`, which judges what comes out, on `own_plan`, by whose definitions a plan is
//! a feasible one, on `integer_grids` for numbers with a sign, on `work_clock` for the time at which it ends early, and on `rand_pcg`;
//! `heur_plugin` stands on it.
#![tactic(auto)]

mod changing;
mod dictionary;
mod frame;
mod planning;
mod rounding;
mod walking;

pub use planning::walked_setups;

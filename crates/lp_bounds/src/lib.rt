//! The linear relaxation without cuts: on the path to a node of a search, and of the whole model to its end.
//!
//! Family: search. It stands on `lp_relaxation`, `tableau`, `least_index` and `cert_checker`; `branching`, `answers_exist`
//! and `lotplan` stand on it.
//!
//! A node is reached by bounds of quantities and setups, one for each branch on its path. `path_relaxation` solves the
//! program of all rows that the rules of plans make and of these bounds, by the least-index rule and in exact fractions.
//! It says what the least cost is, rounded up, with a leaf of a certificate that proves it; that no point meets the rows,
//! with a leaf that proves this; or why it says neither. So a search knows of a node that stays open that no leaf without
//! cuts could have said more (`IsMetAt` in `specs/Path`), or what kept it from knowing (`IsExempt`).
//!
//! Of the points that meet all rows which the rules of plans make, some point costs least, or there is none. The base bound
//! is the least cost rounded up to a whole number (`IsBaseBound` in `specs/Bounds`), and no feasible plan costs less. The
//! closed value of `lp_relaxation` is that of these rows and all (l,S) inequalities, so that the two numbers say what the
//! inequalities are worth. `base_bound` solves the program of these rows by the dual simplex with the least-index rule, to
//! its end and in exact fractions. It answers without a bound where the tableau is large, and where a number of the run
//! doesn't fit 128 bits. `base_bounds_are_one` and `base_bounds_are_floors` are laws, contracts of functions that do
//! nothing.
#![tactic(auto)]

mod bound;
mod laws;
mod leaf;
mod program;
mod relaxing;
mod says;

pub use bound::{BoundSays, base_bound};
pub use laws::{base_bounds_are_floors, base_bounds_are_one};
pub use lp_relaxation::{MAX_CELLS, MAX_PIVOTS};
pub use relaxing::path_relaxation;
pub use says::{Exempt, PathSays};

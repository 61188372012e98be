//! What words for people are made of: what a model says at any number, what stands in a printed line, and how a part of a file is
//! shown.
//!
//! A number in a printed line may name nothing of the model at hand, since files change. So each call answers for every number, and where
//! it names nothing: with no name, with 0, or with what limits nothing.
//!
//! Family: commands. It stands on `lot_model`; `explain_plan` and `explain_answer` stand on it. No clause speaks of the answers: they are
//! shown, and nothing is decided by them.
#![tactic(auto)]

mod lines;
mod looks;
mod quoting;

pub use lines::{line_with, number_at, number_of, place_at, word_at};
pub use looks::{
    capacity_of, demand_of, end_max_of, end_min_of, item_name, lead_of, lot_time, max_lot_of,
    may_be_late, min_lot_of, opening_of, per_unit_of, resource_name, setup_time_of, unit_time_of,
};
pub use quoting::{plain, quoted};

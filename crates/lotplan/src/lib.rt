//! `lotplan`: plans lots in whole numbers, with proof that no plan costs less.
//!
//! Family: commands. It stands on `command_line` for the words, on `lot_io`, `instance_reader` and `plan_file` for files, on
//! `branching`, `replan`, `stream_check`, `lp_bounds`, `lot_quantities`, `report` and `plan_page` for what is done, and on `existence` and `answers_exist` for its
//! laws; `lotplan_main` and, of tests, `cases` stand on it.
//!
//! `run` reads the words, plans, plans on, judges, checks, reports, completes, draws, generates, upgrades or bounds, writes and prints; what each
//! status means is its contract. `refuse_words` is for words that are no text, which `run` can't be given.
#![tactic(auto)]

mod commands;
mod extract;
mod laws;
mod model_file;
mod running;
mod said;
mod sought;
pub mod status;
mod writing;

pub use laws::{statuses_are_one, statuses_exist};
pub use running::{refuse_words, run};

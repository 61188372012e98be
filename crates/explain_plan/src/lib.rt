//! Words for people on plans and schedules: what a printed line means in this file of theirs.
//!
//! Standard output has one exact line for programs; these words go beside it, with the names and
//! rows of the files. `words_on_plan` finds the row of a plan file that holds none, or lists the
//! rules that its plan breaks. `words_on_schedule` does so for a schedule file.
//!
//! Family: commands. It stands on `explain_lookup`, on `lot_model`, `plan_rules` and `plan_file`
//! for models and plans, on `csv` and `csv_records` for the rows of files, and on `strsim` for how
//! alike two names are; `explain` stands on it. Nothing is proved of the words. A line of another
//! kind gets none.
#![tactic(auto)]

mod balance_words;
mod cells;
mod header_words;
mod listing;
mod name_words;
mod number_words;
mod plan_words;
mod row_words;
mod rows;
mod rule_words;
mod schedule_words;
mod slot_words;

pub use plan_words::words_on_plan;
pub use schedule_words::words_on_schedule;

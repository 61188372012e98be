//! The words of a command line, read by `clap`.
//!
//! Family: commands. It stands on `clap`, which matches the words, on `whole_numbers` for the numbers
//! among them, and on `lot_sizing` and `instance_reader` for the limits of a model that is drawn;
//! `lotplan`, `lotplan_main` and `explain` stand on it.
//!
//! `read_words` gives the command that the words are, or the text that is printed where they are none. `seconds_asked` gives the
//! seconds of a plan, for a program that has a clock.
#![tactic(auto)]

mod commands;
mod conditions;
mod grammar;
mod laws;
mod reader;
mod requests;
mod table;

pub use commands::{
    Command, CompleteNames, DrawNames, Names, PegNames, Reading, ReplanNames, ReportForm,
    ScheduleNames, Search, TwoNames, UpgradeNames,
};
pub use laws::{commands_are_allowed, plain_words_keep_their_meaning};
pub use reader::{read_words, seconds_asked};
pub use requests::{
    LARGEST_BUDGET, LARGEST_GAP, LARGEST_SECONDS, NEWEST_CERTIFICATE, OLDEST_CERTIFICATE,
    USUAL_BUDGET,
};

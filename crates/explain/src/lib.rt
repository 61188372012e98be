//! Words for people after a run: why a file was refused, which rules a plan breaks, why there is no plan.
//!
//! `explain` reads the files of the command again that the words name, and gives sentences for the error stream; where all
//! is well it gives none. `Remembering` is a sink that keeps what was printed through it, for `explain` to read.
//!
//! Family: commands. It stands on `explain_model`, `explain_plan` and `explain_answer` for the words, on `command_line` for the names of
//! the files, on `lot_io` and `instance_reader` to read them; `lotplan_main` stands on it. Nothing is proved of the words, but that
//! no file is written on the way to them.
#![tactic(auto)]

mod explaining;
mod files;
mod remembering;
mod same_file;
mod word_words;

pub use explain_answer::Course;
pub use explaining::{Seen, explain};
pub use remembering::Remembering;

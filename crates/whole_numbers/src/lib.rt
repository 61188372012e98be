//! Whole numbers in texts.
//!
//! Family: outside. It stands on nothing; `lot_io`, `plan_file`, `cert_lines` and `command_line` stand on it.
//!
//! `read_whole` reads decimal digits as the number that they write, if it is at most a limit, and
//! names the first fault otherwise. `specs/Digits` says which texts are whole numbers.
#![tactic(auto)]

mod digits;

pub use digits::{NumberFault, read_whole};

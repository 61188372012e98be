//! The machine's files, written so that an output is whole or as it was, and never over a file of the same command.
//!
//! `Outputs` knows the words of the command line and the outputs of the run. `SafeShelf` is a shelf over the machine's files: it
//! writes each output to a file beside it. `SafeSink` is the output before which these files are renamed into their places, so that
//! a line that says that a file is written is printed only where it is.
//!
//! Family: outside. It stands on `lot_io`; `lotplan_main` stands on it.
#![tactic(auto)]

mod naming;
mod outputs;
mod part;
mod shelf;
mod sink;

pub use outputs::Outputs;
pub use shelf::SafeShelf;
pub use sink::SafeSink;

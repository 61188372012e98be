//! The run in its plain form: one list of cells, each looked at in each pivot, and the plain operations on fractions. Tests
//! and times compare it with `Lp::solve`, which gives the same by its contract.

mod run;
mod start;
mod step;
mod tableau;

pub use run::solve;

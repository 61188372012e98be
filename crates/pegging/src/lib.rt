//! Pegging: which supply of an item serves which need, first in first out.
//!
//! Family: plans. It stands on `lot_sizing`, `lot_model` and `plan_rules`, on `csv_records` for
//! the records of a text, and on `itoa` for digits; `lotplan` stands on it.
//!
//! The supplies of an item are its opening stock and then its lots by period; its needs are,
//! period by period, the demand and then what goes into each other item, and last the end stock.
//! Both are laid along the same line, each quantity after those before it. A peg is a supply and a
//! need that lie over each other, with the length of the overlap.
//!
//! `peg` gives the pegs of a feasible plan, `write_pegs` their text.
#![tactic(auto)]

mod amounts;
mod listing;
mod pegs;
mod walking;
mod writing;

pub use pegs::{Peg, Supply, Target};
pub use walking::peg;
pub use writing::write_pegs;

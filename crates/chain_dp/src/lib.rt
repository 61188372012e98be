//! The least cost of a chain of up to three items that are planned together: one setup of a part may serve
//! several lots of what it goes into, which items that are planned by themselves don't know.
//!
//! Family: single items. It stands on `lot_sizing`; `reduced_groups` stands on it.
//!
//! A chain is a list of levels, the lowest first, each of which goes into the next one. A level has a cost
//! of a setup and of a unit in each period, needs of its own beside those of the next level, and a lead time
//! (multi-level uncapacitated lot sizing in series; Zangwill 1969, Pochet and Wolsey's book, chapter 13).
//! `ChainTables` finds the least cost over all choices of whole quantities and setups, by recursions over
//! lots: `stretches` for one level, `pairs` for two, `states` for three in numbers of 64 bits and `planes` in
//! numbers of 128 bits, where 64 may not be enough. Lots of levels with lead times are
//! moved to the periods in which they serve (`lists`). Contracts say what the definition says: some choice
//! costs this, and none costs less.
#![tactic(auto)]

mod costs;
mod error;
pub mod laws;
mod level;
mod lists;
mod narrow;
mod numbers;
mod pairs;
mod planes;
mod solving;
mod spare;
mod states;
mod stretches;

pub use error::ChainError;
pub use level::{ChainLevel, has_periods};
pub use solving::ChainTables;

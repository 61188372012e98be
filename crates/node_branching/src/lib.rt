//! Where a node is branched: on which setup or quantity, and at which number.
//!
//! `choice_for` tries some setups of a node by a few rounds of prices on both sides, and gives a `Choice` of the one whose sides
//! gain most; `Gains` remember what sides gained, so that after some trials they aren't tried again. A `Note` has what the rounds at a node came to, with that choice, and `Notes` keep them for the nodes below. By a
//! note `split_of` gives the `Split` of a node, which is one of its list of ranges.
//!
//! Family: search. It stands on `node_domains` for lists of ranges, on `tree_search`, whose splits it gives, on
//! `price_leaves` for rounds of prices, and on the bounds of `lin_rows`; `branching` stands on it.
#![tactic(auto)]

mod choosing;
mod gains;
mod notes;
mod splitting;

pub use choosing::{Choice, Trials, choice_for};
pub use gains::Gains;
pub use notes::{Note, Notes};
pub use splitting::split_of;

// A tree whose leaves carry what they say.

use crate::Proposal;
use cert_lines::Claim;
use lin_rows::Column;
use std::boxed::Box;

/// A tree of branches.
#[derive(Debug, Drop)]
pub enum Sought {
    /// The range of a column is split.
    Branch {
        /// The column.
        column: Column,
        /// The place of its range, counted from 0.
        place: usize,
        /// The greatest value of the low side.
        at: u64,
        /// The side where the column is at most that value.
        low: Box<Sought>,
        /// The side where it is greater.
        high: Box<Sought>,
    },
    /// The range is not split further.
    Leaf(Proposal),
}

/// What a whole search shows.
#[derive(Debug, Drop)]
pub struct Searched {
    /// What holds of all plans in the ranges.
    pub claim: Claim,
    /// The tree that shows it.
    pub tree: Sought,
    /// The number of its nodes.
    pub nodes: u64,
}

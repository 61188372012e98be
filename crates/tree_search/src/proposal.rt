// What is proposed for a node.

use cert_lines::Leaf;
use lin_rows::Column;

/// A leaf for a node, and what it says: each plan there costs at least so much, or there is none.
#[derive(Debug, Drop)]
pub struct Proposal {
    /// The leaf.
    pub leaf: Leaf,
    /// The number, in units of money, and None where there is no plan.
    pub says: Option<u128>,
    /// Whether evidence was asked for that no more can be said here.
    pub examined: bool,
    /// The place of what the guide remembers of the node, counted from 0; None where it remembers nothing.
    pub note: Option<usize>,
}

/// A branch.
#[derive(Clone, Copy, Debug, PartialEq, Eq)]
pub struct Split {
    /// The column.
    pub column: Column,
    /// The place of its range, counted from 0.
    pub place: usize,
    /// The greatest number of the low side.
    pub at: u64,
}

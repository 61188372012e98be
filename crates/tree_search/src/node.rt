// Where a search stands: what each column may still be, and the branches on the way there.

use lin_rows::Bound;

/// The least and the greatest number that a column may still have.
#[derive(Clone, Copy, Debug, PartialEq, Eq)]
pub struct Range {
    /// The least number.
    pub low: u64,
    /// The greatest number.
    pub high: u64,
}

/// A node of a tree that is searched.
#[derive(Debug, Drop)]
pub struct Node {
    /// A range for each column that is branched on.
    pub ranges: Vec<Range>,
    /// The bounds of the branches on the way from the root.
    pub path: Vec<Bound>,
}

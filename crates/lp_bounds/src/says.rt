// What is said of the relaxation on a path.

use cert_lines::Leaf;

/// Why there is neither a leaf that says a number nor one that says that there is no point.
#[derive(Clone, Copy, Debug, PartialEq, Eq)]
pub enum Exempt {
    /// The run has more pivots than `MAX_PIVOTS`.
    Pivots,
    /// A number of the run doesn't fit 128 bits.
    Cell {
        /// The pivot, counted from 1.
        pivot: u32,
        /// The number of the row's basic variable before the pivot, and 0 for the cost.
        row: u32,
        /// The number of the column's nonbasic variable before the pivot, and 0 for the constants.
        column: u32,
    },
    /// A number of the leaf, or a sum of absolute values in it, is 2^127 or more.
    Leaf,
}

/// What is said of the relaxation on a path.
#[derive(Debug, Drop)]
pub enum PathSays {
    /// The least cost, rounded up to a whole amount of money.
    AtLeast {
        /// A `Linear` leaf that says the amount.
        leaf: Leaf,
        /// The amount.
        bound: u128,
    },
    /// No point meets the rows and the bounds.
    NoPoint {
        /// A `Farkas` leaf that says so.
        leaf: Leaf,
    },
    /// Neither is said, for this cause.
    Exempt(Exempt),
}

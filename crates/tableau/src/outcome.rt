// How a run ends.

use frac128::Frac;

/// How the solution of a linear program ends.
#[derive(Debug, Drop)]
pub enum Outcome {
    /// Optimal: a point meets all rows, and the multipliers prove that none costs less.
    Least {
        /// The value of each column.
        point: Vec<Frac>,
        /// How many times each row is taken.
        multipliers: Vec<Frac>,
        /// What the point costs.
        value: Frac,
    },
    /// Infeasible: no point meets all rows, as the multipliers prove.
    Empty {
        /// How many times each row is taken.
        multipliers: Vec<Frac>,
    },
    /// The iteration limit is reached: the run has more pivots than it was given.
    Stopped {
        /// The pivots that were made.
        pivots: u32,
    },
    /// Overflow: a number of the run doesn't fit 128 bits.
    Passed {
        /// The pivot, counted from 1.
        pivot: u32,
        /// The number of the row's basic variable before the pivot, and 0 for the cost.
        row: u32,
        /// The number of the column's nonbasic variable before the pivot, and 0 for the constants.
        column: u32,
    },
}

// What a search finds.
use certificate::Certificate;
use plan_rules::Plan;

/// What was said at the root, before any branch.
#[derive(Clone, Copy, Debug, PartialEq, Eq)]
pub enum RootSays {
    /// The model is uncoupled: its items are planned by themselves.
    Uncoupled,
    /// The first tableau has so many cells, which are too many.
    Skipped {
        /// The number of cells.
        cells: u64,
    },
    /// The relaxation with all (l,S) inequalities costs at least this, rounded up to a whole number.
    Closed(u128),
    /// That relaxation has no point, so there is no plan.
    Empty,
    /// The pivots of this round were too many, or it was the last one and some inequality was still violated.
    Stopped {
        /// The round, counted from 1.
        round: u32,
    },
    /// A number of this round didn't fit 128 bits.
    Passed {
        /// The round, counted from 1.
        round: u32,
        /// What didn't fit.
        at: PassedAt,
    },
}

/// Where a number didn't fit 128 bits.
#[derive(Clone, Copy, Debug, PartialEq, Eq)]
pub enum PassedAt {
    /// In the tableau, at this pivot: the ratio or the update of this cell.
    Cell {
        /// The pivot, counted from 1.
        pivot: u32,
        /// The number of the row's basic variable, 0 for the cost.
        row: u32,
        /// The number of the nonbasic variable, 0 for the constants.
        column: u32,
    },
    /// In looking for a violated (l,S) inequality of this item and last period.
    Separation {
        /// The item.
        item: u32,
        /// The last period of the inequality.
        l: u32,
    },
    /// In making a leaf of the multipliers.
    Leaf,
}

/// What a search finds.
#[derive(Debug, Drop)]
pub struct Found {
    /// The certificate of what is claimed.
    pub certificate: Certificate,
    /// The best plan that was found; none where no plan was.
    pub plan: Option<Plan>,
    /// What was said at the root.
    pub root: RootSays,
    /// The number of nodes of the certificate's tree: branches and leaves.
    pub nodes: u64,
}

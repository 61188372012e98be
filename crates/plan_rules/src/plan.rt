// What a plan is.
use crate::Grid;

/// What is made of each item in each period, where it is set up, and what is left or owed at the
/// end of the period. Quantities, stocks and backlogs are in units of the item.
#[derive(Debug, PartialEq, Drop)]
pub struct Plan {
    /// Quantities made, in the period in which their lot is started.
    pub make: Grid,
    /// 1 where the item is set up, else 0.
    pub setup: Grid,
    /// Stocks at the end of each period.
    pub stock: Grid,
    /// Backlogs at the end of each period.
    pub backlog: Grid,
}

/// A plan and what it costs.
#[derive(Debug, PartialEq, Drop)]
pub struct Planned {
    /// The plan.
    pub plan: Plan,
    /// Its cost, in money.
    pub cost: u128,
}

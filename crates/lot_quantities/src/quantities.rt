// What is made and where it is set up.
use plan_rules::Grid;

/// What is made of each item in each period, in units of the item, and where it is set up.
#[derive(Debug, PartialEq, Drop)]
pub struct Quantities {
    /// Quantities made, in the period in which their lot is started.
    pub make: Grid,
    /// The setups, 1 where there is one; a table may hold any whole number of 64 bits.
    pub setup: Grid,
}

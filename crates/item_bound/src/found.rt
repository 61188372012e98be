// What all items cost apart.
use certificate::Cut;
use lin_rows::Row;

/// What all items cost apart, and what proves it.
#[derive(Debug, Drop)]
pub struct Apart {
    /// No feasible plan costs less, in money.
    pub amount: u128,
    /// A block cut of each lead-free item, in the order of items.
    pub cuts: Vec<Cut>,
    /// The rows of the cuts.
    pub rows: Vec<Row>,
}

// The numbers that cuts of an item are made of.

/// The lists of a price row, an entry for each period, in money for a unit.
#[derive(Debug, Drop)]
pub struct Prices {
    /// What a unit is worth for the period's net demand.
    pub price: Vec<u64>,
    /// The cost of making a unit.
    pub unit: Vec<u64>,
    /// The cost of a unit in stock at the end of the period.
    pub hold: Vec<u64>,
    /// The cost of a unit owed at the end of the period.
    pub back: Vec<u64>,
}

/// The lists of a block row: an entry for each period, in money, and the potentials.
#[derive(Debug, Drop)]
pub struct Potentials {
    /// The cost of a setup.
    pub setup: Vec<u64>,
    /// The cost of making a unit.
    pub unit: Vec<u64>,
    /// The cost of a unit in stock at the end of the period.
    pub hold: Vec<u64>,
    /// The cost of a unit owed at the end of the period.
    pub back: Vec<u64>,
    /// The potential of each position.
    pub steps: Vec<u128>,
}

// An item of a chain.
ghost use Rattle.std.specs.Prelude.{◌≡◌, ◌↔◌, IsTrue};
ghost use Rattle.chain_dp.specs.Chains.{HasPeriods};

use lot_sizing::limits::MAX_PERIODS;

/// An item of a chain: lists with one entry for each period, the first period first. Costs are in any one
/// unit of money, quantities in units of the item.
#[derive(Debug, Drop)]
pub struct ChainLevel {
    /// The cost of a setup.
    pub setup_cost: Vec<u128>,
    /// The cost of making one unit.
    pub unit_cost: Vec<u128>,
    /// Units that are asked for in the period, other than by the next level.
    pub need: Vec<u64>,
    /// The price of a unit that is there before the first period. As many may be taken as are wanted.
    pub opening_price: u128,
    /// Units of the item in one unit of the next level; the last level has none, and any number serves.
    pub per_next: u64,
    /// The periods from the start of a lot until it arrives. What goes into it is taken at its start.
    pub lead: usize,
}

/// Whether each list of a level has an entry for each of so many periods, which are at most `MAX_PERIODS`.
pub fn has_periods(level: &ChainLevel, periods: usize) -> bool
    ensures { IsTrue result ↔ HasPeriods periods level.now }
{
    periods <= MAX_PERIODS as usize
        && level.setup_cost.len() == periods
        && level.unit_cost.len() == periods
        && level.need.len() == periods
}

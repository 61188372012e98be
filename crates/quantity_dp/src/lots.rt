// The lots of one item.

/// What a lot of an item costs in a period, what must have been started by its end, what is asked by then and what a
/// unit costs that falls short of it, and the largest lot.
#[derive(Clone, Copy, Debug, PartialEq, Eq)]
pub struct LotPeriod {
    /// The price of a setup.
    pub setup: u128,
    /// The price of one unit.
    pub unit: u128,
    /// Units that must have been started by the end of the period.
    pub need: u64,
    /// Units that are asked to have been started by then, of which some may fall short.
    pub asked: u64,
    /// What each unit costs that falls short of them.
    pub share: u128,
    /// The most units that a setup makes.
    pub largest: u64,
}

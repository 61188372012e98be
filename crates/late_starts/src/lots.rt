// The late lots of one item.

/// What an item costs in a period whose quantities may fall short of what is on time.
#[derive(Clone, Copy, Debug, PartialEq, Eq)]
pub struct LateLot {
    /// The price of a setup.
    pub setup: u128,
    /// The price of one unit.
    pub unit: u128,
    /// The price of one unit that falls short at the end of the period.
    pub share: u128,
    /// Units that are on time by the end of the period.
    pub need: u64,
}

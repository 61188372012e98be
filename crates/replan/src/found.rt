// The instance of the later periods.
use lot_model::Instance;

/// The instance of the later periods, and what the start costs.
#[derive(Drop)]
pub struct Rest {
    /// The later periods: each item begins with what is left of it, and what is owed of it is asked for at once.
    pub instance: Instance,
    /// What the start costs with the least stocks and backlogs, in money.
    pub spent: u128,
}

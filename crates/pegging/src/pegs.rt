// What a peg is.

/// Where units of an item come from.
#[derive(Clone, Copy, Debug, PartialEq, Eq)]
pub enum Supply {
    /// The stock before the first period.
    Opening,
    /// The lot that is started in a period.
    Lot(u32),
}

/// What units of an item are needed for.
#[derive(Clone, Copy, Debug, PartialEq, Eq)]
pub enum Target {
    /// The demand of a period.
    Demand(u32),
    /// The lot of another item that is started in a period.
    Part {
        /// The item that they go into.
        item: u32,
        /// The period.
        period: u32,
    },
    /// The stock at the end of the last period.
    End,
}

/// How many units of an item a supply gives to a need.
#[derive(Clone, Copy, Debug, PartialEq, Eq)]
pub struct Peg {
    /// The item.
    pub item: u32,
    /// Where the units come from.
    pub from: Supply,
    /// What they are needed for.
    pub to: Target,
    /// The number of units.
    pub quantity: u64,
}

// Groups of items whose reduced costs are bounded together.

use crate::shares::Shares;

/// An item of a chain.
#[derive(Clone, Copy, Debug, PartialEq, Eq)]
pub struct ChainLink {
    /// The item, counted from 1.
    pub item: u32,
    /// The price at which units of it are bought before the first period, as many as are wanted.
    pub opening_price: u128,
}

/// Items whose setups and quantities are bounded together, at their reduced costs.
#[derive(Debug, Drop)]
pub enum Group {
    /// An item by what must have been started of it.
    Item {
        /// The item, counted from 1.
        item: u32,
    },
    /// An item by what is on time of it, that may fall short as far as backlogs allow.
    Late {
        /// The item, counted from 1.
        item: u32,
        /// What a unit that falls short costs by the end of each period, which is charged on the backlogs that allow it.
        shares: Shares,
    },
    /// An item by what must have been started of it and its largest lots, in whole quantities.
    Quantities {
        /// The item, counted from 1.
        item: u32,
    },
    /// An item by what is on time of it and its largest lots, in whole quantities, that may fall short as far as
    /// backlogs allow.
    LateQuantities {
        /// The item, counted from 1.
        item: u32,
        /// What a unit that falls short costs by the end of each period, which is charged on the backlogs that allow it.
        shares: Shares,
    },
    /// An item that goes into another one.
    Pair {
        /// The item that goes into the other.
        low: ChainLink,
        /// The other.
        top: ChainLink,
    },
    /// An item that goes into another one, which goes into a third.
    Triple {
        /// The item that goes into the second.
        low: ChainLink,
        /// The second, which goes into the third.
        mid: ChainLink,
        /// The third.
        top: ChainLink,
    },
}

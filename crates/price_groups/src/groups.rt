// Items that are planned together, as they stand before there are prices.
use item_groups::ChainLink;

/// An item that is planned by itself, or items that are planned together.
#[derive(Clone, Copy, Debug, PartialEq, Eq)]
pub enum ItemGroup {
    /// An item by what must have been started of it.
    Item {
        /// The item, counted from 1.
        item: u32,
    },
    /// An item by what is on time of it, that may fall short.
    Late {
        /// The item, counted from 1.
        item: u32,
    },
    /// An item by what must have been started of it and its largest lots, in whole quantities.
    Quantities {
        /// The item, counted from 1.
        item: u32,
    },
    /// An item by what is on time of it and its largest lots, in whole quantities, that may fall short.
    LateQuantities {
        /// The item, counted from 1.
        item: u32,
    },
    /// An item that goes into another one.
    Pair {
        /// The item that goes into the other.
        low: ChainLink,
        /// The other.
        top: ChainLink,
    },
    /// An item that goes into another one, which goes into a third.
    Triple {
        /// The item that goes into the second.
        low: ChainLink,
        /// The second, which goes into the third.
        mid: ChainLink,
        /// The third.
        top: ChainLink,
    },
}

// A link with another price, where it is that of an item.
fn priced(link: ChainLink, item: u32, price: u128) -> ChainLink {
    if link.item == item {
        ChainLink {
            item,
            opening_price: price,
        }
    } else {
        link
    }
}

impl ItemGroup {
    /// The same group, in which the links of an item, but for the last one, have another price.
    pub(crate) fn with_price(self, item: u32, price: u128) -> ItemGroup {
        match self {
            ItemGroup::Pair { low, top } => ItemGroup::Pair {
                low: priced(low, item, price),
                top,
            },
            ItemGroup::Triple { low, mid, top } => ItemGroup::Triple {
                low: priced(low, item, price),
                mid: priced(mid, item, price),
                top,
            },
            other => other,
        }
    }
}

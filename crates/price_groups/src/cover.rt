// Which items are planned in which group.
ghost use Rattle.std.specs.Prelude.{◌≤◌};
ghost use Rattle.lot_sizing.specs.Problem.{item_count};

use crate::groups::ItemGroup;
use integer_grids::numbers::{of_amount, plus};
use item_groups::ChainLink;
use lot_model::Instance;
use std::alloc::{AllocError, Global};

// A unit that is there before the first period costs so much where none is.
const NONE_THERE: u128 = 100_000_000_000;

// Chains of three items are planned over at most so many periods.
const LONG_CHAIN: u32 = 72;

/// What is known of an item before it is in a group.
#[derive(Clone, Copy, Debug, PartialEq, Eq)]
pub(crate) enum Kind {
    /// It isn't planned in groups.
    Alone,
    /// It may fall short of what is on time.
    Late,
    /// It is planned in whole quantities.
    Whole,
    /// It is planned in whole quantities, and may fall short of what is on time.
    LateWhole,
    /// It never falls short, and may be in a chain.
    Chained,
}

/// Which items may be in groups, and which are.
#[derive(Debug, Drop)]
pub(crate) struct Cover {
    // By item what is known of it.
    kinds: Vec<Kind>,
    // By item whether it is left: neither planned alone nor in a group yet.
    left: Vec<bool>,
    groups: Vec<ItemGroup>,
}

// What the setups of an item cost in all periods.
fn fees_of(instance: &Instance, item: u32) -> i64
    requires low { 1 ≤ item }
    requires high { item ≤ item_count instance.now }
{
    let mut sum = 0;
    for cost in instance.setup_costs(item) {
        sum = plus(sum, of_amount(*cost));
    }
    sum
}

// Whether a list says so of an item.
fn is_true(list: &[bool], item: u32) -> bool {
    match list.get((item as usize).wrapping_sub(1)) {
        Some(found) => *found,
        None => false,
    }
}

// A link of a chain.
fn link(item: u32) -> ChainLink {
    ChainLink {
        item,
        opening_price: NONE_THERE,
    }
}

impl Cover {
    /// No groups yet. `kinds` says what is known of each item. The error is that memory ran out.
    pub(crate) fn new(alloc: Global, kinds: Vec<Kind>) -> Result<Cover, AllocError> {
        let mut left = Vec::with_capacity(alloc, kinds.len())?;
        for kind in kinds.iter() {
            left.push(*kind != Kind::Alone)?;
        }
        Ok(Cover {
            kinds,
            left,
            groups: Vec::new(alloc),
        })
    }

    // What is known of an item.
    fn kind(&self, item: u32) -> Kind {
        match self.kinds.get((item as usize).wrapping_sub(1)) {
            Some(kind) => *kind,
            None => Kind::Alone,
        }
    }

    // Whether an item is left.
    fn is_left(&self, item: u32) -> bool {
        is_true(&self.left, item)
    }

    // An item isn't left.
    fn take(&mut self, item: u32) {
        if let Some(left) = self.left.get_mut((item as usize).wrapping_sub(1)) {
            *left = false;
        }
    }

    /// The groups so far.
    pub(crate) fn into_groups(self) -> Vec<ItemGroup> {
        self.groups
    }

    // Whether an item may stand below another one in a chain: it is left, and is neither late nor in whole quantities.
    fn may_be_below(&self, item: u32) -> bool {
        self.is_left(item) && self.kind(item) == Kind::Chained
    }

    // The component of an item whose setups cost most, of those that may stand below it.
    fn below(&self, instance: &Instance, item: u32) -> Option<u32> {
        if item < 1 || item > instance.items() {
            return None;
        }
        let mut best = None;
        let mut most = 0;
        for need in instance.needs(item) {
            if need.quantity >= 1 && self.may_be_below(need.item) {
                let fees = fees_of(instance, need.item);
                if fees > most {
                    most = fees;
                    best = Some(need.item);
                }
            }
        }
        best
    }

    // A chain of an item and, where there are such, of a component of it and of one of that.
    fn chain_below(&mut self, instance: &Instance, top: u32) -> ItemGroup {
        let Some(mid) = self.below(instance, top) else {
            return ItemGroup::Item { item: top };
        };
        self.take(mid);
        match self.below(instance, mid) {
            Some(low) if is_short(instance, mid) => {
                self.take(low);
                ItemGroup::Triple {
                    low: link(low),
                    mid: link(mid),
                    top: link(top),
                }
            }
            _ => ItemGroup::Pair {
                low: link(mid),
                top: link(top),
            },
        }
    }

    // A group that an item begins.
    fn group_below(&mut self, instance: &Instance, item: u32) -> ItemGroup {
        self.take(item);
        match self.kind(item) {
            Kind::Late => ItemGroup::Late { item },
            Kind::Whole => ItemGroup::Quantities { item },
            Kind::LateWhole => ItemGroup::LateQuantities { item },
            Kind::Alone | Kind::Chained => self.chain_below(instance, item),
        }
    }

    /// An item that is left begins a group with its components. The error is that memory ran out.
    pub(crate) fn put(&mut self, instance: &Instance, item: u32) -> Result<(), AllocError> {
        if self.is_left(item) {
            let group = self.group_below(instance, item);
            self.groups.push(group)?;
        }
        Ok(())
    }
}

// Whether a chain of three items with this one in the middle isn't too long.
fn is_short(instance: &Instance, mid: u32) -> bool {
    if mid < 1 || mid > instance.items() {
        return false;
    }
    instance.periods().saturating_add(instance.lead(mid)) <= LONG_CHAIN
}

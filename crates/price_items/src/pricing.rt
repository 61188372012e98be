// What is asked of each lead-free item and of all that it goes into.
ghost use Rattle.std.specs.Prelude.{◌≤◌};
ghost use Rattle.lot_sizing.specs.Problem.{item_count};
ghost use Rattle.echelon.specs.Weights.{IsExplosionOf};

use echelon::{EchelonItem, Explosion, echelon_of, lead_free, net_of};
use integer_grids::numbers::{of_amount, of_total, plus, sum_of, times};
use lot_model::Instance;
use node_setups::Fixed;
use price_groups::Grouping;
use std::alloc::{AllocError, Global};

/// A lead-free item with its echelon: the item and all items that it goes into. Lists have an entry for each period.
#[derive(Debug, Drop)]
pub struct Item {
    /// The item's number.
    pub number: u32,
    /// For each item the units of this one in one unit of it.
    pub weights: Vec<u64>,
    /// What is asked for.
    pub demand: Vec<i64>,
    /// What remains to be made.
    pub net: Vec<i64>,
    /// What is left of the opening stock.
    pub left: Vec<i64>,
    /// What remains to be made in all periods.
    pub total: i64,
    /// The stock before the first period.
    pub opening: i64,
    /// The largest stock at the end.
    pub end_max: i64,
    /// Whether the echelon may be owed.
    pub backlogged: bool,
}

/// What a node is priced with.
#[derive(Clone, Copy)]
pub struct NodePricing<'a> {
    /// The instance.
    pub instance: &'a Instance,
    /// What prices of it are made with.
    pub pricing: &'a Pricing,
    /// What the path of the node says of setups.
    pub fixed: &'a Fixed,
}

impl Item {
    // The units of this item in one unit of another.
    pub(crate) fn weight_in(&self, other: u32) -> i64 {
        match self.weights.get((other as usize).wrapping_sub(1)) {
            Some(weight) => of_amount(*weight),
            None => 0,
        }
    }
}

/// What the rounds and the leaves of an instance need of it, made once: its lead-free items with their echelons, and the
/// order in which items go into each other.
#[derive(Debug, Drop)]
pub struct Pricing {
    // The items by their numbers; None where an item isn't lead-free.
    all: Vec<Option<Item>>,
    // All items, each one before its components.
    order: Vec<u32>,
    // Whether something may be owed.
    may_owe: bool,
    // The groups in which items are planned, where they say more than each item by itself.
    grouping: Option<Grouping>,
}

impl Pricing {
    /// The items of an instance. The error is that memory ran out. It takes time in the square of their number times that of
    /// the periods.
    pub fn new(
        alloc: Global,
        instance: &Instance,
        explosion: &Explosion,
    ) -> Result<Pricing, AllocError>
        requires explosion { IsExplosionOf instance.now explosion.now }
    {
        let mut all = Vec::with_capacity(alloc, instance.items() as usize)?;
        let mut may_owe = false;
        for number in 1..instance.items() + 1 {
            may_owe = may_owe || instance.has_backlog_cost(number);
            all.push(item_of(alloc, instance, explosion, number)?)?;
        }
        Ok(Pricing {
            all,
            order: explosion.order().to_vec(alloc)?,
            may_owe,
            grouping: Grouping::of(alloc, instance, explosion.order())?,
        })
    }

    /// A lead-free item by its number, counted from 1. It takes no memory.
    pub fn get(&self, number: u32) -> Option<&Item> {
        match self.all.get((number as usize).wrapping_sub(1)) {
            Some(found) => found.as_ref(),
            None => None,
        }
    }

    /// All items, each one before its components.
    pub fn order(&self) -> &[u32] {
        &self.order
    }

    /// The groups in which items are planned together; None where each is planned by itself.
    pub fn grouping(&self) -> Option<&Grouping> {
        self.grouping.as_ref()
    }

    /// The groups in which items are planned together, to be changed; None where each is planned by itself.
    pub fn grouping_mut(&mut self) -> Option<&mut Grouping> {
        self.grouping.as_mut()
    }

    /// Each item is planned by itself from now on. The groups are given, if there were any.
    pub fn take_grouping(&mut self) -> Option<Grouping> {
        self.grouping.take()
    }

    /// Items are planned in these groups from now on, or each by itself.
    pub fn set_grouping(&mut self, grouping: Option<Grouping>) {
        self.grouping = grouping;
    }

    /// The groups in which items are planned together, where some item is planned by what is on time of it.
    pub fn late_grouping(&self) -> Option<&Grouping> {
        match self.grouping() {
            Some(grouping) if grouping.has_late() => Some(grouping),
            _ => None,
        }
    }

    /// Whether an item may be owed that is planned by what is on time of it: an end product with a price of backlog.
    pub fn is_late_end(&self, instance: &Instance, item: u32) -> bool {
        if item < 1 || item > instance.items() || !instance.has_backlog_cost(item) {
            return false;
        }
        self.late_grouping().is_some()
    }

    /// Whether an item is such an end product that goes into no other one: the share of what falls short of it is what those of its
    /// components leave.
    pub fn keeps_rest(&self, item: u32) -> bool {
        match self.late_grouping() {
            Some(grouping) => grouping.is_last(item),
            None => false,
        }
    }

    /// Whether the largest lots of an item are priced: it is planned in a group, and more of it may be made in all than a lot of it.
    pub fn is_linked(&self, instance: &Instance, item: u32) -> bool {
        if item < 1 || item > instance.items() || self.is_backlogged(item) {
            return false;
        }
        match (self.grouping(), instance.max_lot(item)) {
            (Some(grouping), Some(lot)) => of_amount(lot) < grouping.most(item),
            _ => false,
        }
    }

    /// Whether echelons may be owed that are planned alone.
    pub fn may_owe(&self) -> bool {
        self.may_owe && self.late_grouping().is_none()
    }

    /// The units of a lead-free item in one unit of another; 0 of one that isn't.
    pub fn weight(&self, item: u32, other: u32) -> i64 {
        match self.get(item) {
            Some(found) => found.weight_in(other),
            None => 0,
        }
    }

    /// Whether the echelon of a lead-free item may be owed, and is planned alone.
    pub fn is_backlogged(&self, item: u32) -> bool {
        match self.get(item) {
            Some(found) => found.backlogged && self.late_grouping().is_none(),
            None => false,
        }
    }
}

// The numbers of a list as `i64`.
fn all_signed(alloc: Global, list: &[u128]) -> Result<Vec<i64>, AllocError> {
    let mut found = Vec::with_capacity(alloc, list.len())?;
    for number in list {
        found.push(of_total(*number))?;
    }
    Ok(found)
}

// The largest end stocks of an echelon, weighed.
fn end_max_of(instance: &Instance, echelon: &EchelonItem) -> i64 {
    let mut sum = 0;
    let mut item = 0u32;
    for weight in echelon.weights.iter() {
        item = item.saturating_add(1);
        if item <= instance.items() {
            let most = of_amount(instance.end_max(item));
            sum = plus(sum, times(of_amount(*weight), most));
        }
    }
    sum
}

// An item with its echelon.
fn item_of(
    alloc: Global,
    instance: &Instance,
    explosion: &Explosion,
    number: u32,
) -> Result<Option<Item>, AllocError>
    requires explosion { IsExplosionOf instance.now explosion.now }
    requires low { 1 ≤ number }
    requires high { number ≤ item_count instance.now }
{
    if !lead_free(instance, explosion, number) {
        return Ok(None);
    }
    let echelon = echelon_of(alloc, instance, explosion, number)?;
    let net = net_of(alloc, &echelon)?;
    let end_max = end_max_of(instance, &echelon);
    let remains = all_signed(alloc, &net.net)?;
    Ok(Some(Item {
        number,
        demand: all_signed(alloc, &echelon.demand)?,
        total: sum_of(&remains),
        net: remains,
        left: all_signed(alloc, &net.left)?,
        opening: of_total(echelon.opening),
        end_max,
        backlogged: echelon.backlogged,
        weights: echelon.weights,
    }))
}

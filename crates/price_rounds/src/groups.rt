// What the leaf of prices says where items are planned in groups, and the plans behind it.
ghost use Rattle.std.specs.Prelude.{◌≤◌};
ghost use Rattle.lot_sizing.specs.Problem.{item_count};

use crate::lots::{Average, Spare, from_place};
use integer_grids::IntegerGrid;
use integer_grids::numbers::{less, of_amount, wide};
use item_groups::ChainLink;
use lot_model::Instance;
use node_setups::Fixed;
use price_chains::{ChainPlans, Level, NONE};
use price_groups::{Grouping, ItemGroup, MovedCosts, Place, write_level};
use price_items::{DualPrices, NodePricing, Pricing};
use price_quantities::{QuantityPlans, Terms};
use std::alloc::{AllocError, Global};

/// What groups are planned with.
#[derive(Drop)]
pub(crate) struct GroupPlanning {
    /// What setups and units cost.
    pub(crate) moved: MovedCosts,
    // What falls short costs, by item and period.
    share: IntegerGrid,
    chains: ChainPlans,
    quantities: QuantityPlans,
    low: Level,
    mid: Level,
    top: Level,
}

/// What is given to the planning of all groups.
#[derive(Clone, Copy)]
pub(crate) struct Given<'a> {
    /// Where tables get their memory.
    pub(crate) alloc: Global,
    /// The instance.
    pub(crate) instance: &'a Instance,
    /// Its groups.
    pub(crate) grouping: &'a Grouping,
    /// What the path of a node says of setups.
    pub(crate) fixed: &'a Fixed,
}

// A level without lots.
fn empty_level(alloc: Global) -> Level {
    Level {
        fee: Vec::new(alloc),
        unit: Vec::new(alloc),
        asked: Vec::new(alloc),
        per_next: 1,
    }
}

// An opening price with a sign.
fn price_of(link: &ChainLink) -> i64 {
    match i64::try_from(link.opening_price) {
        Ok(price) => price.min(NONE),
        Err(_) => NONE,
    }
}

// What the opening stock of an item is worth at the price of its link.
fn worth_of(instance: &Instance, link: &ChainLink) -> i128 {
    if link.item < 1 || link.item > instance.items() {
        return 0;
    }
    wide(price_of(link), of_amount(instance.opening(link.item)))
}

// The lead time of an item.
fn lead_of(instance: &Instance, item: u32) -> usize {
    if item < 1 || item > instance.items() {
        return 0;
    }
    instance.lead(item) as usize
}

// In how many periods lots of an item can be started that arrive by the last one.
fn open_of(instance: &Instance, item: u32) -> usize {
    (instance.periods() as usize).saturating_sub(lead_of(instance, item))
}

// Where the lots of the last item of a chain stand.
fn top_place(instance: &Instance, item: u32, horizon: usize) -> Place {
    Place {
        shift: 0,
        asked_shift: 0,
        horizon,
        open: open_of(instance, item),
        opening_price: NONE,
        per_next: 1,
    }
}

// Where the lots of an item stand whose chain goes on with another one, behind which are those of the items above.
fn lower_place(
    instance: &Instance,
    link: &ChainLink,
    next: u32,
    asked_shift: usize,
    horizon: usize,
) -> Place {
    let item = link.item;
    let per_next = if next < 1 || next > instance.items() {
        0
    } else {
        of_amount(instance.per_unit(item, next))
    };
    Place {
        shift: lead_of(instance, item).saturating_add(asked_shift),
        asked_shift,
        horizon,
        open: open_of(instance, item),
        opening_price: price_of(link),
        per_next,
    }
}

// What is made beyond all that must be, up to the most, in the first period in which a unit costs nothing.
fn spare_of(given: Given<'_>, moved: &MovedCosts, item: u32, made: i64) -> Option<Spare> {
    if moved.lift.get(item, 1) <= 0 {
        return None;
    }
    let units = less(given.grouping.most(item), made).max(0);
    let mut period = 0u32;
    for cost in moved
        .unit
        .line(item)
        .iter()
        .take(open_of(given.instance, item))
    {
        period = period.saturating_add(1);
        if *cost == 0 {
            return Some(Spare { period, units });
        }
    }
    None
}

// A level is that of an item.
fn write(
    level: &mut Level,
    given: Given<'_>,
    moved: &MovedCosts,
    item: u32,
    place: Place,
) -> Result<(), AllocError> {
    write_level(
        level,
        moved.fee.line(item),
        moved.unit.line(item),
        given.grouping.asked(item),
        given.fixed.line(item),
        place,
    )
}

impl GroupPlanning {
    pub(crate) fn new(alloc: Global, instance: &Instance) -> Result<GroupPlanning, AllocError> {
        Ok(GroupPlanning {
            moved: MovedCosts::zero(alloc, instance)?,
            share: IntegerGrid::zero(alloc, instance.items(), instance.periods())?,
            chains: ChainPlans::new(alloc),
            quantities: QuantityPlans::new(alloc),
            low: empty_level(alloc),
            mid: empty_level(alloc),
            top: empty_level(alloc),
        })
    }

    /// What setups and units cost is written, by these prices.
    pub(crate) fn write_costs(&mut self, instance: &Instance, prices: &DualPrices) {
        self.moved.write(instance, prices.scale, prices.rows());
        self.share.take_from(&prices.share);
    }

    // What is made of an item beyond its plan is added to it.
    fn add_spare(&self, given: Given<'_>, item: u32, total: i64, plan: &mut Average) {
        if let Some(spare) = spare_of(given, &self.moved, item, total) {
            plan.add_spare(item, spare);
        }
    }

    // The plan of a level becomes that of its item.
    fn take_plan(
        &self,
        given: Given<'_>,
        level: usize,
        item: u32,
        shift: usize,
        plan: &mut Average,
    ) {
        let first = shift.saturating_add(1);
        let made = from_place(self.chains.made(level), first);
        let setups = from_place(self.chains.setups(level), first);
        let total = plan.write_plan(item, made, setups, given.fixed);
        self.add_spare(given, item, total, plan);
    }

    // What an item by itself costs.
    fn item_value(
        &mut self,
        given: Given<'_>,
        item: u32,
        plan: &mut Average,
    ) -> Result<i128, AllocError> {
        let place = top_place(given.instance, item, given.instance.periods() as usize);
        write(&mut self.top, given, &self.moved, item, place)?;
        let cost = self.chains.plan_one(given.alloc, &self.top)?;
        self.take_plan(given, 0, item, 0, plan);
        Ok(i128::from(cost))
    }

    // What an item by itself costs that may fall short of what is on time.
    fn late_value(
        &mut self,
        given: Given<'_>,
        item: u32,
        plan: &mut Average,
    ) -> Result<i128, AllocError> {
        let place = top_place(given.instance, item, given.instance.periods() as usize);
        write(&mut self.top, given, &self.moved, item, place)?;
        let shares = self.share.line(item);
        let cost = self
            .chains
            .plan_late(given.alloc, &self.top, shares, place.open)?;
        self.take_plan(given, 0, item, 0, plan);
        plan.write_short(item, from_place(self.chains.short(), 1));
        Ok(i128::from(cost))
    }

    // What an item costs in whole quantities, with what falls short of what is on time, if it may.
    fn whole_value(
        &mut self,
        given: Given<'_>,
        item: u32,
        plan: &mut Average,
    ) -> Result<i128, AllocError> {
        let place = top_place(given.instance, item, given.instance.periods() as usize);
        write(&mut self.top, given, &self.moved, item, place)?;
        let terms = Terms {
            fee: from_place(&self.top.fee, 1),
            unit: from_place(&self.top.unit, 1),
            need: given.grouping.needed(item),
            asked: given.grouping.on_time(item),
            share: self.share.line(item),
            largest: given.grouping.largest(item),
        };
        let cost = self.quantities.plan(terms)?;
        let made = self.quantities.made();
        let total = plan.write_plan(item, made, self.quantities.setups(), given.fixed);
        self.add_spare(given, item, total, plan);
        plan.write_short(item, self.quantities.short());
        Ok(i128::from(cost))
    }

    // What a chain of two items costs, less what the opening stock of the first is worth.
    fn pair_value(
        &mut self,
        given: Given<'_>,
        low: &ChainLink,
        top: &ChainLink,
        plan: &mut Average,
    ) -> Result<i128, AllocError> {
        let instance = given.instance;
        let horizon = instance.periods() as usize;
        let lower = lower_place(instance, low, top.item, 0, horizon);
        write(&mut self.low, given, &self.moved, low.item, lower)?;
        let upper = top_place(instance, top.item, horizon);
        write(&mut self.top, given, &self.moved, top.item, upper)?;
        let cost = self.chains.plan_two(given.alloc, &self.low, &self.top)?;
        self.take_plan(given, 0, low.item, lower.shift, plan);
        self.take_plan(given, 1, top.item, 0, plan);
        Ok(i128::from(cost).saturating_sub(worth_of(instance, low)))
    }

    // What a chain of three items costs, less what the opening stocks of the first two are worth.
    fn triple_value(
        &mut self,
        given: Given<'_>,
        low: &ChainLink,
        mid: &ChainLink,
        top: &ChainLink,
        plan: &mut Average,
    ) -> Result<i128, AllocError> {
        let instance = given.instance;
        let behind = lead_of(instance, mid.item);
        let horizon = (instance.periods() as usize).saturating_add(behind);
        let lower = lower_place(instance, low, mid.item, behind, horizon);
        write(&mut self.low, given, &self.moved, low.item, lower)?;
        let middle = lower_place(instance, mid, top.item, 0, horizon);
        write(&mut self.mid, given, &self.moved, mid.item, middle)?;
        let upper = top_place(instance, top.item, horizon);
        write(&mut self.top, given, &self.moved, top.item, upper)?;
        let cost = self
            .chains
            .plan_three(given.alloc, &self.low, &self.mid, &self.top)?;
        self.take_plan(given, 0, low.item, lower.shift, plan);
        self.take_plan(given, 1, mid.item, middle.shift, plan);
        self.take_plan(given, 2, top.item, 0, plan);
        let worth = worth_of(instance, low).saturating_add(worth_of(instance, mid));
        Ok(i128::from(cost).saturating_sub(worth))
    }

    // What a group costs. Its plan is written.
    fn group_value(
        &mut self,
        given: Given<'_>,
        group: &ItemGroup,
        plan: &mut Average,
    ) -> Result<i128, AllocError> {
        match group {
            ItemGroup::Item { item } => self.item_value(given, *item, plan),
            ItemGroup::Late { item } => self.late_value(given, *item, plan),
            ItemGroup::Quantities { item } | ItemGroup::LateQuantities { item } => {
                self.whole_value(given, *item, plan)
            }
            ItemGroup::Pair { low, top } => self.pair_value(given, low, top, plan),
            ItemGroup::Triple { low, mid, top } => self.triple_value(given, low, mid, top, plan),
        }
    }

    /// What is taken of the stock that is there of the item of a level of a group before the first period, at the prices that were
    /// written last.
    pub(crate) fn used_of(
        &mut self,
        given: Given<'_>,
        group: &ItemGroup,
        level: usize,
        plan: &mut Average,
    ) -> Result<i64, AllocError> {
        let _ = self.group_value(given, group, plan)?;
        Ok(match self.chains.made(level).first() {
            Some(units) => *units,
            None => 0,
        })
    }

    /// What all groups cost at prices, less what is known of stocks. Their plans are written.
    pub(crate) fn value(
        &mut self,
        alloc: Global,
        node: NodePricing<'_>,
        grouping: &Grouping,
        prices: &DualPrices,
        plan: &mut Average,
    ) -> Result<i128, AllocError> {
        let NodePricing {
            instance,
            pricing,
            fixed,
        } = node;
        self.write_costs(instance, prices);
        let given = Given {
            alloc,
            instance,
            grouping,
            fixed,
        };
        let mut sum = stock_value(instance, pricing, prices);
        for group in grouping.groups() {
            let cost = self.group_value(given, group, plan)?;
            sum = sum.saturating_add(cost);
        }
        Ok(sum.saturating_sub(self.lifted(instance, grouping)))
    }

    // What all units cost by which items are lifted, as many as can be made of each.
    fn lifted(&self, instance: &Instance, grouping: &Grouping) -> i128 {
        let mut sum = 0i128;
        for item in 1..instance.items() + 1 {
            let lifted = wide(self.moved.lift.get(item, 1), grouping.most(item));
            sum = sum.saturating_add(lifted);
        }
        sum
    }
}

// What stocks cost that aren't moved to units: by what is there before the first period, less what is demanded; and by the least end
// stock.
fn item_stock_value(instance: &Instance, pricing: &Pricing, prices: &DualPrices, item: u32) -> i128
    requires low { 1 ≤ item }
    requires high { item ≤ item_count instance.now }
{
    let mut sum = 0i128;
    let mut left = of_amount(instance.opening(item));
    for (price, amount) in prices.stock.line(item).iter().zip(instance.demands(item)) {
        left = less(left, of_amount(*amount));
        sum = sum.saturating_add(wide(*price, left));
    }
    let ended = of_amount(instance.end_min(item));
    sum.saturating_add(wide(prices.end_rest(instance, pricing, item), ended))
}

// What stocks of all items cost that aren't moved to units, by what is there before, less what is demanded, and by the least end stocks.
fn stock_value(instance: &Instance, pricing: &Pricing, prices: &DualPrices) -> i128 {
    let mut sum = 0i128;
    for item in 1..instance.items() + 1 {
        sum = sum.saturating_add(item_stock_value(instance, pricing, prices, item));
    }
    sum
}

// What a unit costs that falls short of what is on time by the end of each period: shares of the price of what is owed.
use crate::prices::DualPrices;
use crate::pricing::Pricing;
use integer_grids::IntegerGrid;
use integer_grids::numbers::{at, less, of_amount, over, plus, share, times};
use lot_model::{Instance, Need};
use price_groups::{Grouping, arrival_of, components_of};
use std::alloc::{AllocError, Global};

// Shares are lowered by parts of this whole.
const WHOLE: i64 = 1 << 30;

// The part where nothing is charged.
const FREE: i64 = WHOLE + 1;

// The share where nothing is charged: the price of setups that can't be made.
const MOST_SHARE: i64 = 100_000_000_000;

// What a unit costs that is owed when a lot arrives which is started in a period, with the price of its stock; None where nothing may be
// owed then.
fn owed_price(instance: &Instance, prices: &DualPrices, item: u32, period: u32) -> Option<i64> {
    if item < 1 || item > instance.items() {
        return None;
    }
    let costs = instance.backlog_costs(item)?;
    let arrival = arrival_of(instance, item, period);
    if arrival >= instance.periods() {
        return None;
    }
    let cost = match costs.get((arrival as usize).wrapping_sub(1)) {
        Some(cost) => times(of_amount(prices.scale), of_amount(*cost)),
        None => 0,
    };
    Some(plus(cost, prices.stock.get(item, arrival)).max(0))
}

// Whether something may fall short of an item by the end of a period.
fn may_be_short(instance: &Instance, grouping: &Grouping, item: u32, period: u32) -> bool {
    let arrival = arrival_of(instance, item, period);
    arrival < instance.periods() && grouping.is_late(item) && at(grouping.on_time(item), period) > 0
}

/// What is known of the shares of items while they are kept within their bounds, by item and period.
#[derive(Debug, Drop)]
pub struct Loads {
    // What shares come to, with those of all components that the item takes.
    load: IntegerGrid,
    // What is taken of each share.
    part: IntegerGrid,
}

impl Loads {
    /// Of 0. The error is that memory ran out, of which none is taken where no items are planned by what is on time of them.
    pub fn new(alloc: Global, instance: &Instance, pricing: &Pricing) -> Result<Loads, AllocError> {
        let items = match pricing.late_grouping() {
            Some(_) => instance.items(),
            None => 0,
        };
        Ok(Loads {
            load: IntegerGrid::zero(alloc, items, instance.periods())?,
            part: IntegerGrid::zero(alloc, items, instance.periods())?,
        })
    }

    // What the shares of a component come to in an item is added.
    fn add_component(&mut self, instance: &Instance, grouping: &Grouping, item: u32, need: Need) {
        let units = of_amount(need.quantity);
        for period in 1..instance.periods() + 1 {
            if at(grouping.on_time(need.item), period) > 0 {
                let arrival = arrival_of(instance, need.item, period);
                let more = times(units, self.load.get(need.item, period));
                let load = plus(self.load.get(item, arrival), more);
                self.load.put(item, arrival, load);
            }
        }
    }

    // An item keeps what its components leave of what it costs that is owed.
    fn keep_rest(&self, instance: &Instance, prices: &mut DualPrices, item: u32) {
        for period in 1..instance.periods() + 1 {
            let rest = match owed_price(instance, prices, item, period) {
                Some(price) => less(price, self.load.get(item, period)).max(0),
                None => 0,
            };
            prices.share.put(item, period, rest);
        }
    }

    // What shares come to, components before the items that they go into. Items keep what is left.
    fn write(
        &mut self,
        instance: &Instance,
        pricing: &Pricing,
        grouping: &Grouping,
        prices: &mut DualPrices,
    ) {
        self.load.clear();
        for item in pricing.order().iter().rev() {
            for need in components_of(instance, *item) {
                self.add_component(instance, grouping, *item, *need);
            }
            if grouping.is_last(*item) {
                self.keep_rest(instance, prices, *item);
            }
            self.load.add_times(*item, prices.share.line(*item), 1);
        }
    }

    // What is taken of the shares of a component is no more than of those of an item.
    fn pass_down(&mut self, instance: &Instance, item: u32, need: Need, units: i64) {
        for period in 1..instance.periods() + 1 {
            let arrival = arrival_of(instance, need.item, period);
            let own = self.part.get(need.item, period);
            let given = self.part.get(item, arrival);
            let given = if given == FREE {
                FREE
            } else {
                over(given, units)
            };
            self.part.put(need.item, period, own.min(given));
        }
    }

    // What is taken of the shares of an item, so that they come to no more than what it costs that is owed.
    fn write_own(&mut self, instance: &Instance, prices: &DualPrices, item: u32) {
        for period in 1..instance.periods() + 1 {
            if let Some(price) = owed_price(instance, prices, item, period) {
                let load = self.load.get(item, period);
                let own = if load > price {
                    share(price, WHOLE, load)
                } else {
                    WHOLE
                };
                let part = self.part.get(item, period).min(own);
                self.part.put(item, period, part);
            }
        }
    }

    // All parts are those of nothing that is charged.
    fn free(&mut self, instance: &Instance) {
        for item in 1..instance.items() + 1 {
            if let Some(line) = self.part.line_mut(item) {
                for cell in line.iter_mut() {
                    *cell = FREE;
                }
            }
        }
    }

    // What is taken of all shares, items before their components.
    fn write_parts(&mut self, instance: &Instance, pricing: &Pricing, prices: &DualPrices) {
        self.free(instance);
        for item in pricing.order() {
            self.write_own(instance, prices, *item);
            for need in components_of(instance, *item) {
                self.pass_down(instance, *item, *need, 1);
            }
        }
    }

    // The share of an item in a period, of which its part is taken.
    fn taken(&self, prices: &DualPrices, item: u32, period: u32) -> i64 {
        match self.part.get(item, period) {
            FREE => MOST_SHARE,
            WHOLE => prices.share.get(item, period),
            part => share(prices.share.get(item, period), part, WHOLE),
        }
    }

    // Shares of all items that may fall short are taken in part; those that may not, or aren't charged, stand at their bounds.
    fn take_parts(&self, instance: &Instance, grouping: &Grouping, prices: &mut DualPrices) {
        for item in 1..instance.items() + 1 {
            for period in 1..instance.periods() + 1 {
                if may_be_short(instance, grouping, item, period) {
                    let taken = self.taken(prices, item, period);
                    prices.share.put(item, period, taken);
                }
            }
        }
    }

    // Each item with a price of backlog gives the same part of it to all items in it.
    fn write_gifts(
        &mut self,
        instance: &Instance,
        grouping: &Grouping,
        prices: &DualPrices,
        item: u32,
    ) {
        let count = items_within(instance, grouping, item);
        for period in 1..instance.periods() + 1 {
            if let Some(price) = owed_price(instance, prices, item, period) {
                let part = self.part.get(item, period).min(over(price, count));
                self.part.put(item, period, part);
            }
        }
    }
}

// How many items an end product has in it, itself among them.
fn items_within(instance: &Instance, grouping: &Grouping, end: u32) -> i64 {
    let mut count = 0;
    for item in 1..instance.items() + 1 {
        if grouping.weight(item, end) > 0 {
            count = plus(count, 1);
        }
    }
    count
}

// Shares are at least 0, and 0 where nothing may fall short.
fn bound_shares(instance: &Instance, grouping: &Grouping, prices: &mut DualPrices) {
    for item in 1..instance.items() + 1 {
        for period in 1..instance.periods() + 1 {
            let share = if may_be_short(instance, grouping, item, period) {
                prices.share.get(item, period).max(0)
            } else {
                0
            };
            prices.share.put(item, period, share);
        }
    }
}

/// Shares are kept within their bounds: what those of all items in an end product come to is what a unit of it costs that is owed when
/// its lots arrive.
pub(crate) fn settle_shares(
    instance: &Instance,
    pricing: &Pricing,
    grouping: &Grouping,
    prices: &mut DualPrices,
    loads: &mut Loads,
) {
    bound_shares(instance, grouping, prices);
    loads.write(instance, pricing, grouping, prices);
    loads.write_parts(instance, pricing, prices);
    loads.take_parts(instance, grouping, prices);
    loads.write(instance, pricing, grouping, prices);
}

/// Each component in an end product gets the same part of what it costs that is owed; one of several end products gets the smallest of
/// these parts.
pub(crate) fn split_shares(
    instance: &Instance,
    pricing: &Pricing,
    grouping: &Grouping,
    prices: &mut DualPrices,
    loads: &mut Loads,
) {
    loads.free(instance);
    for item in pricing.order() {
        loads.write_gifts(instance, grouping, prices, *item);
        for need in components_of(instance, *item) {
            loads.pass_down(instance, *item, *need, of_amount(need.quantity));
        }
    }
    for item in 1..instance.items() + 1 {
        prices.share.add_times(item, loads.part.line(item), 1);
    }
}

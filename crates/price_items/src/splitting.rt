// The costs of items, split among the echelons.
use crate::prices::DualPrices;
use crate::pricing::{Item, Pricing};
use crate::settling::{settle, split_backs};
use crate::shares::{Loads, split_shares};
use integer_grids::numbers::{less, lower, of_amount, over, plus, times};
use integer_grids::{IntegerGrid, clear};
use lot_model::Instance;
use std::alloc::{AllocError, Global};

// The largest price that a cost gets by the scale, in money times the scale.
const MOST_SCALED: u64 = 100_000_000;

// The largest scale is 2 to this power, in prices for a unit of money.
const MOST_SCALE_POWER: u32 = 12;

const MOST_SCALE: u64 = 1 << MOST_SCALE_POWER;

// The largest of numbers and a first one.
fn largest(first: u64, list: &[u64]) -> u64 {
    let mut most = first;
    for number in list {
        most = most.max(*number);
    }
    most
}

// The largest cost of an instance.
fn largest_cost(instance: &Instance) -> u64 {
    let mut most = 1;
    for item in 1..instance.items() + 1 {
        most = largest(most, instance.setup_costs(item));
        most = largest(most, instance.unit_costs(item));
        most = largest(most, instance.hold_costs(item));
        if let Some(costs) = instance.backlog_costs(item) {
            most = largest(most, costs);
        }
    }
    most
}

// The largest power of two by which no cost gets too large, and 1 where there is none.
fn scale_for(cost: u64) -> u64 {
    let mut scale = MOST_SCALE;
    for _ in 0..MOST_SCALE_POWER {
        if scale <= 1 || scale.saturating_mul(cost) <= MOST_SCALED {
            return scale.max(1);
        }
        scale /= 2;
    }
    1
}

// What is left of the prices of stock of the items that one is in, for each of it in them: at least 0. None where it is in
// none.
fn share_of(left: &IntegerGrid, found: &Item, count: u32, period: u32) -> Option<i64> {
    let mut least = None;
    for place in 0..count {
        let other = place.wrapping_add(1);
        let weight = found.weight_in(other);
        if weight > 0 {
            let part = over(left.get(other, period), weight).max(0);
            least = Some(lower(least, part));
        }
    }
    least
}

// The echelon of an item takes its share of the price of stock of each item in it.
fn take_share(
    left: &mut IntegerGrid,
    stock: &mut IntegerGrid,
    found: &Item,
    count: u32,
    period: u32,
) {
    let Some(part) = share_of(left, found, count, period) else {
        return;
    };
    for place in 0..count {
        let other = place.wrapping_add(1);
        let price = times(found.weight_in(other), part);
        stock.put(other, period, plus(stock.get(other, period), price));
        left.put(other, period, less(left.get(other, period), price));
    }
}

// The echelon of an item takes its share of the prices of stock of the items in it, in each period.
fn take_shares(
    left: &mut IntegerGrid,
    stock: &mut IntegerGrid,
    found: &Item,
    count: u32,
    periods: u32,
) {
    for place in 0..periods {
        take_share(left, stock, found, count, place.wrapping_add(1));
    }
}

// Costs of an item by period, times the scale.
fn put_scaled(grid: &mut IntegerGrid, item: u32, costs: &[u64], scale: i64) {
    let mut period = 0u32;
    for cost in costs {
        period = period.saturating_add(1);
        grid.put(item, period, times(scale, of_amount(*cost)));
    }
}

// Holding costs, times the scale.
fn scaled_costs(alloc: Global, instance: &Instance, scale: u64) -> Result<IntegerGrid, AllocError> {
    let mut grid = IntegerGrid::zero(alloc, instance.items(), instance.periods())?;
    for item in 1..instance.items() + 1 {
        put_scaled(&mut grid, item, instance.hold_costs(item), of_amount(scale));
    }
    Ok(grid)
}

// Prices of stock, from the raw components up: each echelon takes all that is left to it.
fn split_stocks(
    alloc: Global,
    instance: &Instance,
    pricing: &Pricing,
    prices: &mut DualPrices,
) -> Result<(), AllocError> {
    let mut left = scaled_costs(alloc, instance, prices.scale)?;
    let (count, periods) = (instance.items(), instance.periods());
    for item in pricing.order().iter().rev() {
        if let Some(found) = pricing.get(*item) {
            take_shares(&mut left, &mut prices.stock, found, count, periods);
        }
    }
    Ok(())
}

// Prices of stock of all items in groups are their holding costs.
fn fill_stocks(
    alloc: Global,
    instance: &Instance,
    pricing: &Pricing,
    prices: &mut DualPrices,
) -> Result<(), AllocError> {
    let whole = scaled_costs(alloc, instance, prices.scale)?;
    for item in 1..instance.items() + 1 {
        if !pricing.is_backlogged(item) {
            if let Some(line) = prices.stock.line_mut(item) {
                clear(line);
            }
            prices.stock.add_times(item, whole.line(item), 1);
        }
    }
    Ok(())
}

/// Prices by which capacity costs nothing, and the holding and backlog costs of items are split among the echelons that
/// they are in: from the raw components up each echelon holds stock at all that the items in it leave to it. Where items are planned in
/// groups, stock of those whose echelons are never late costs what it costs to hold. The scale is
/// the largest power of two up to `MOST_SCALE` by which no cost gets past `MOST_SCALED`, or 1.
///
/// The error is that memory ran out. It takes time in the square of the number of items times that of the periods.
pub fn split_prices(
    alloc: Global,
    instance: &Instance,
    pricing: &Pricing,
) -> Result<DualPrices, AllocError> {
    let scale = scale_for(largest_cost(instance));
    let mut prices = DualPrices::zero(alloc, instance, scale)?;
    split_stocks(alloc, instance, pricing, &mut prices)?;
    split_backs(alloc, instance, pricing, &mut prices)?;
    if pricing.grouping().is_some() {
        fill_stocks(alloc, instance, pricing, &mut prices)?;
    }
    let mut loads = Loads::new(alloc, instance, pricing)?;
    if let Some(grouping) = pricing.late_grouping() {
        split_shares(instance, pricing, grouping, &mut prices, &mut loads);
    }
    settle(instance, pricing, &mut prices, &mut loads);
    Ok(prices)
}

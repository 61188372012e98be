// Prices are kept within their bounds.
ghost use Rattle.std.specs.Prelude.{◌≤◌};
ghost use Rattle.lot_sizing.specs.Problem.{item_count};

use crate::prices::DualPrices;
use crate::pricing::Pricing;
use crate::shares::{Loads, settle_shares};
use integer_grids::numbers::{less, lower, of_amount, over, plus, share, times};
use integer_grids::{IntegerGrid, clear};
use lot_model::{Instance, Need};
use std::alloc::{AllocError, Global};

// Prices of stock are at most the holding costs.
fn bound_above(line: &mut [i64], costs: &[u64], scale: i64) {
    for (cell, cost) in line.iter_mut().zip(costs) {
        *cell = (*cell).min(times(scale, of_amount(*cost)));
    }
}

// Prices of stock are the holding costs.
fn fill_scaled(line: &mut [i64], costs: &[u64], scale: i64) {
    for (cell, cost) in line.iter_mut().zip(costs) {
        *cell = times(scale, of_amount(*cost));
    }
}

// Prices of stock are at least as far below 0 as those of backlog are above it.
fn bound_below(line: &mut [i64], backs: &[i64]) {
    for (cell, back) in line.iter_mut().zip(backs) {
        *cell = (*cell).max(less(0, *back));
    }
}

// Prices of stock of an item that is planned in a group are at most its holding costs, and at least as far below 0 as what a unit of it
// costs that is owed, if it may be.
fn bound_grouped(instance: &Instance, line: &mut [i64], item: u32, scale: i64)
    requires low { 1 ≤ item }
    requires high { item ≤ item_count instance.now }
{
    bound_above(line, instance.hold_costs(item), scale);
    if let Some(costs) = instance.backlog_costs(item) {
        for (cell, cost) in line.iter_mut().zip(costs) {
            *cell = (*cell).max(less(0, times(scale, of_amount(*cost))));
        }
    }
}

// Prices of stock of an item are at most its holding costs, and 0 where the item isn't lead-free and no items are planned in groups;
// where the echelon may be owed and is planned alone, a unit in stock and one owed together cost no less than nothing. Those of an end
// product that is planned by what is on time of it are its holding costs, where it goes into another one.
fn bound_stock(instance: &Instance, pricing: &Pricing, prices: &mut DualPrices, item: u32)
    requires low { 1 ≤ item }
    requires high { item ≤ item_count instance.now }
{
    let scale = of_amount(prices.scale);
    if let Some(line) = prices.stock.line_mut(item) {
        if pricing.is_late_end(instance, item) {
            if pricing.keeps_rest(item) {
                bound_grouped(instance, line, item, scale);
            } else {
                fill_scaled(line, instance.hold_costs(item), scale);
            }
            return;
        }
        match pricing.get(item) {
            Some(_) => {
                bound_above(line, instance.hold_costs(item), scale);
                if pricing.is_backlogged(item) {
                    bound_below(line, prices.back.line(item));
                }
            }
            None if pricing.grouping().is_some() => bound_grouped(instance, line, item, scale),
            None => clear(line),
        }
    }
}

// The price of an item's stock, less those of the components in it.
fn echelon_price(stock: &IntegerGrid, needs: &[Need], item: u32, period: u32) -> i64 {
    let mut price = stock.get(item, period);
    for need in needs {
        let units = of_amount(need.quantity);
        price = less(price, times(units, stock.get(need.item, period)));
    }
    price
}

// What the components of an item cost in stock, those with a price above 0.
fn components_price(prices: &DualPrices, needs: &[Need], period: u32) -> i64 {
    let mut sum = 0;
    for need in needs {
        let price = prices.stock.get(need.item, period).max(0);
        sum = plus(sum, times(of_amount(need.quantity), price));
    }
    sum
}

// Prices of components are lowered in proportion, so that they cost no more than the item in stock and owed.
fn lower_components(prices: &mut DualPrices, needs: &[Need], item: u32, period: u32) {
    let owed = prices.back.get(item, period);
    if plus(echelon_price(&prices.stock, needs, item, period), owed) >= 0 {
        return;
    }
    let whole = components_price(prices, needs, period);
    let most = plus(prices.stock.get(item, period), owed).max(0);
    for need in needs {
        let price = prices.stock.get(need.item, period);
        if price > 0 {
            prices
                .stock
                .put(need.item, period, share(price, most, whole));
        }
    }
}

// Prices of the components of an item are lowered in proportion in each period.
fn lower_all(instance: &Instance, prices: &mut DualPrices, item: u32) {
    if item < 1 || item > instance.items() {
        return;
    }
    let needs = instance.needs(item);
    for period in 1..instance.periods() + 1 {
        lower_components(prices, needs, item, period);
    }
}

// Echelons that may be owed have no prices further below 0 than what a unit that is owed costs.
fn order_stocks(instance: &Instance, pricing: &Pricing, prices: &mut DualPrices) {
    for item in pricing.order() {
        if pricing.is_backlogged(*item) {
            lower_all(instance, prices, *item);
        }
    }
}

// What is owed of all components in an end product costs in a period.
fn owed_price(
    instance: &Instance,
    pricing: &Pricing,
    prices: &DualPrices,
    end: u32,
    period: u32,
) -> i64 {
    let mut sum = 0;
    for item in 1..instance.items() + 1 {
        if item != end {
            let weight = pricing.weight(item, end);
            sum = plus(sum, times(weight, prices.back.get(item, period)));
        }
    }
    sum
}

// Prices of what is owed of components are lowered, so that together they cost no more than the end product.
fn lower_owed(
    instance: &Instance,
    pricing: &Pricing,
    prices: &mut DualPrices,
    end: u32,
    period: u32,
    most: i64,
) {
    let whole = owed_price(instance, pricing, prices, end, period);
    if whole <= most {
        return;
    }
    for item in 1..instance.items() + 1 {
        if item != end && pricing.weight(item, end) > 0 {
            let price = prices.back.get(item, period);
            prices.back.put(item, period, share(price, most, whole));
        }
    }
}

// What a lead-free item costs that is owed in a period, times the scale; 0 where it can't be.
fn owed_cost(
    instance: &Instance,
    pricing: &Pricing,
    prices: &DualPrices,
    item: u32,
    period: u32,
) -> i64 {
    if item < 1 || item > instance.items() || pricing.get(item).is_none() {
        return 0;
    }
    if period < 1 || period > instance.periods() {
        return 0;
    }
    match instance.backlog_cost(item, period) {
        Some(cost) => times(of_amount(prices.scale), of_amount(cost)),
        None => 0,
    }
}

// Prices of backlog of an item are at least 0, and 0 where nothing may be owed.
fn bound_back(instance: &Instance, prices: &mut DualPrices, item: u32, owing: bool) {
    for period in 1..instance.periods() + 1 {
        let price = prices.back.get(item, period).max(0);
        prices.back.put(item, period, if owing { price } else { 0 });
    }
}

// Prices of backlog of all items are at least 0, and 0 where nothing may be owed.
fn bound_backs(instance: &Instance, pricing: &Pricing, prices: &mut DualPrices) {
    for item in 1..instance.items() + 1 {
        bound_back(instance, prices, item, pricing.is_backlogged(item));
    }
}

// Components leave something of what an end product costs that is owed.
fn lower_backs(instance: &Instance, pricing: &Pricing, prices: &mut DualPrices, end: u32) {
    for period in 1..instance.periods() + 1 {
        let most = owed_cost(instance, pricing, prices, end, period);
        lower_owed(instance, pricing, prices, end, period, most);
    }
}

// An end product keeps what its components leave.
fn keep_rest(instance: &Instance, pricing: &Pricing, prices: &mut DualPrices, end: u32) {
    for period in 1..instance.periods() + 1 {
        let most = owed_cost(instance, pricing, prices, end, period);
        let rest = less(most, owed_price(instance, pricing, prices, end, period));
        prices.back.put(end, period, rest.max(0));
    }
}

// Components leave something of all end products.
fn lower_all_backs(instance: &Instance, pricing: &Pricing, prices: &mut DualPrices) {
    for end in 1..instance.items() + 1 {
        if instance.has_backlog_cost(end) {
            lower_backs(instance, pricing, prices, end);
        }
    }
}

// All end products keep what their components leave.
fn keep_rests(instance: &Instance, pricing: &Pricing, prices: &mut DualPrices) {
    for end in 1..instance.items() + 1 {
        if instance.has_backlog_cost(end) {
            keep_rest(instance, pricing, prices, end);
        }
    }
}

// Prices of largest lots of an item are at least 0, and leave nothing of a setup that costs less than nothing; 0 where they aren't priced.
fn bound_links(instance: &Instance, pricing: &Pricing, prices: &mut DualPrices, item: u32)
    requires low { 1 ≤ item }
    requires high { item ≤ item_count instance.now }
{
    if !pricing.is_linked(instance, item) {
        if let Some(line) = prices.link.line_mut(item) {
            clear(line);
        }
        return;
    }
    for period in 1..instance.periods() + 1 {
        let price = prices.link.get(item, period);
        if price == 0 {
            continue;
        }
        let most = prices.most_link(instance, item, period);
        prices.link.put(item, period, price.max(0).min(most));
    }
}

/// All prices are kept within their bounds. `loads` are those of the same items.
pub fn settle(instance: &Instance, pricing: &Pricing, prices: &mut DualPrices, loads: &mut Loads) {
    if pricing.may_owe() {
        bound_backs(instance, pricing, prices);
        lower_all_backs(instance, pricing, prices);
        keep_rests(instance, pricing, prices);
    }
    for item in 1..instance.items() + 1 {
        bound_stock(instance, pricing, prices, item);
    }
    order_stocks(instance, pricing, prices);
    if let Some(grouping) = pricing.late_grouping() {
        settle_shares(instance, pricing, grouping, prices, loads);
    }
    for item in 1..instance.items() + 1 {
        bound_links(instance, pricing, prices, item);
    }
}

// How many echelons an item is in.
fn echelons_with(instance: &Instance, pricing: &Pricing, end: u32) -> i64 {
    let mut count = 0;
    for item in 1..instance.items() + 1 {
        if pricing.weight(item, end) > 0 {
            count = plus(count, 1);
        }
    }
    count
}

// An end product that may be owed, and how many echelons share what that costs.
#[derive(Clone, Copy)]
struct EndProduct {
    number: u32,
    echelons: i64,
}

// All end products that may be owed.
fn end_products(
    alloc: Global,
    instance: &Instance,
    pricing: &Pricing,
) -> Result<Vec<EndProduct>, AllocError> {
    let mut ends = Vec::new(alloc);
    for number in 1..instance.items() + 1 {
        if instance.has_backlog_cost(number) {
            let echelons = echelons_with(instance, pricing, number);
            ends.push(EndProduct { number, echelons })?;
        }
    }
    Ok(ends)
}

// A component's part of what an end product costs that is owed in a period; None where it isn't a component of it.
fn part_of(
    instance: &Instance,
    pricing: &Pricing,
    prices: &DualPrices,
    end: EndProduct,
    item: u32,
    period: u32,
) -> Option<i64> {
    let weight = pricing.weight(item, end.number);
    if item == end.number || weight <= 0 {
        return None;
    }
    let cost = owed_cost(instance, pricing, prices, end.number, period);
    Some(over(cost, times(end.echelons, weight)))
}

// The smallest of a component's parts in a period; None where it goes into no end product that may be owed.
fn least_part(
    instance: &Instance,
    pricing: &Pricing,
    prices: &DualPrices,
    ends: &[EndProduct],
    item: u32,
    period: u32,
) -> Option<i64> {
    let mut least = None;
    for end in ends {
        if let Some(part) = part_of(instance, pricing, prices, *end, item, period) {
            least = Some(lower(least, part));
        }
    }
    least
}

// A component gets the smallest of its parts in each period.
fn give_parts(
    instance: &Instance,
    pricing: &Pricing,
    prices: &mut DualPrices,
    ends: &[EndProduct],
    item: u32,
) {
    for period in 1..instance.periods() + 1 {
        if let Some(part) = least_part(instance, pricing, prices, ends, item, period) {
            prices.back.put(item, period, part);
        }
    }
}

// Each echelon that an end product is in gets the same part of what it costs that is owed; a component of several end products
// gets the smallest of these parts. The error is that memory ran out.
pub(crate) fn split_backs(
    alloc: Global,
    instance: &Instance,
    pricing: &Pricing,
    prices: &mut DualPrices,
) -> Result<(), AllocError> {
    let ends = end_products(alloc, instance, pricing)?;
    for item in 1..instance.items() + 1 {
        give_parts(instance, pricing, prices, &ends, item);
    }
    Ok(())
}

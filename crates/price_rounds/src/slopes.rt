// In which direction prices are better.
ghost use Rattle.std.specs.Prelude.{◌≤◌};
ghost use Rattle.lot_sizing.specs.Problem.{item_count};

use crate::lots::Average;
use crate::steps::Steps;
use integer_grids::numbers::{Rate, UNIT, add_times, at, less, of_amount, plus, times};
use integer_grids::{IntegerGrid, clear};
use lot_model::{Instance, Need};
use price_groups::{Grouping, arrival_of, components_of, most_by_setup};
use price_items::{DualPrices, NodePricing, Pricing};
use std::alloc::{AllocError, Global};

// Shares and prices of least lots take so many times the steps of prices of stock.
const FAR: i128 = 9;

// The subgradient of the Lagrangean bound: by how much it changes with each price, at plans of the items.
#[derive(Debug, Drop)]
pub(crate) struct Slopes {
    capacity: IntegerGrid,
    stock: IntegerGrid,
    back: IntegerGrid,
    share: IntegerGrid,
    lot: IntegerGrid,
    link: IntegerGrid,
    steps: Steps,
}

// What there is of a resource, below 0.
fn write_room(line: &mut [i64], capacities: &[u64]) {
    for (cell, time) in line.iter_mut().zip(capacities) {
        *cell = less(0, times(UNIT, of_amount(*time)));
    }
}

// A direction is 0 where the price is 0, or less, and would get lower.
fn stay_positive(line: &mut [i64], prices: &[i64]) {
    for (slope, price) in line.iter_mut().zip(prices) {
        if *price <= 0 {
            *slope = (*slope).max(0);
        }
    }
}

// A direction is 0 where the price is as far below 0 as that of backlog is above it, or further, and would get lower.
fn stay_owed(line: &mut [i64], prices: &[i64], backs: &[i64]) {
    for ((slope, price), back) in line.iter_mut().zip(prices).zip(backs) {
        if plus(*price, *back) <= 0 {
            *slope = (*slope).max(0);
        }
    }
}

// A direction is 0 where the price is what a unit in stock costs, or more, and would get higher.
fn stay_below(line: &mut [i64], prices: &[i64], costs: &[u64], scale: i64) {
    for ((slope, price), cost) in line.iter_mut().zip(prices).zip(costs) {
        if *price >= times(scale, of_amount(*cost)) {
            *slope = (*slope).min(0);
        }
    }
}

// A direction is 0 where the price is as far below 0 as what a unit costs that is owed, or further, and would get lower.
fn stay_above(line: &mut [i64], prices: &[i64], costs: Option<&[u64]>, scale: i64) {
    let Some(costs) = costs else {
        return;
    };
    for ((slope, price), cost) in line.iter_mut().zip(prices).zip(costs) {
        if plus(*price, times(scale, of_amount(*cost))) <= 0 {
            *slope = (*slope).max(0);
        }
    }
}

// Each number is the sum of a first one and of all up to it.
fn add_up(line: &mut [i64], first: i64) {
    let mut sum = first;
    for cell in line.iter_mut() {
        sum = plus(sum, *cell);
        *cell = sum;
    }
}

// How many items have directions of prices of largest lots: all, or none where none is priced.
fn linked_items(instance: &Instance, pricing: &Pricing) -> u32 {
    for item in 1..instance.items() + 1 {
        if pricing.is_linked(instance, item) {
            return instance.items();
        }
    }
    0
}

impl Slopes {
    // At no prices: those of backlogs, of what falls short and of least and largest lots have no directions where there are none.
    pub(crate) fn zero(
        alloc: Global,
        instance: &Instance,
        pricing: &Pricing,
    ) -> Result<Slopes, AllocError> {
        let (items, periods) = (instance.items(), instance.periods());
        let owed = if pricing.may_owe() { items } else { 0 };
        let late = match pricing.late_grouping() {
            Some(_) => items,
            None => 0,
        };
        Ok(Slopes {
            capacity: IntegerGrid::zero(alloc, instance.resources(), periods)?,
            stock: IntegerGrid::zero(alloc, items, periods)?,
            back: IntegerGrid::zero(alloc, owed, periods)?,
            share: IntegerGrid::zero(alloc, late, periods)?,
            lot: IntegerGrid::zero(alloc, late, periods)?,
            link: IntegerGrid::zero(alloc, linked_items(instance, pricing), periods)?,
            steps: Steps::of(alloc, instance, pricing)?,
        })
    }

    // The sum of the products with other directions, each times the steps of its price.
    pub(crate) fn dot(&self, other: &Slopes) -> i128 {
        let stock = self.stock.dot(&other.stock);
        let far = self
            .share
            .dot(&other.share)
            .saturating_add(self.lot.dot(&other.lot))
            .saturating_add(self.link.dot(&other.link));
        self.steps
            .dot(&self.capacity, &other.capacity)
            .saturating_add(stock)
            .saturating_add(self.back.dot(&other.back))
            .saturating_add(far.saturating_mul(FAR))
    }

    // The time that an item takes of each resource.
    fn add_item(&mut self, instance: &Instance, plan: &Average, item: u32)
        requires low { 1 ≤ item }
        requires high { item ≤ item_count instance.now }
    {
        for usage in instance.uses(item) {
            let (unit, setup) = (of_amount(usage.unit), of_amount(usage.setup));
            self.capacity
                .add_times(usage.resource, plan.units.line(item), unit);
            self.capacity
                .add_times(usage.resource, plan.setups.line(item), setup);
        }
    }

    // What there is of all resources, below 0.
    fn write_rooms(&mut self, instance: &Instance) {
        for resource in 1..instance.resources() + 1 {
            if let Some(line) = self.capacity.line_mut(resource) {
                write_room(line, instance.capacities(resource));
            }
        }
    }

    // The time that all items take of each resource.
    fn add_items(&mut self, instance: &Instance, plan: &Average) {
        for item in 1..instance.items() + 1 {
            self.add_item(instance, plan, item);
        }
    }

    // By how much the plans use more than there is of each resource.
    fn write_capacity(&mut self, instance: &Instance, prices: &DualPrices, plan: &Average) {
        self.write_rooms(instance);
        self.add_items(instance, plan);
        for resource in 1..instance.resources() + 1 {
            if let Some(line) = self.capacity.line_mut(resource) {
                stay_positive(line, prices.capacity.line(resource));
            }
        }
    }

    // What the components of an item have in stock for it isn't their own.
    fn take_stocks(&mut self, instance: &Instance, plan: &Average, item: u32)
        requires low { 1 ≤ item }
        requires high { item ≤ item_count instance.now }
    {
        for need in instance.needs(item) {
            let units = less(0, of_amount(need.quantity));
            self.stock
                .add_times(need.item, plan.stocks.line(item), units);
        }
    }

    // A direction of a price of stock is 0 where the price can't be changed, or not in that direction.
    fn keep_stock(&mut self, instance: &Instance, pricing: &Pricing, prices: &DualPrices, item: u32)
        requires low { 1 ≤ item }
        requires high { item ≤ item_count instance.now }
    {
        let scale = of_amount(prices.scale);
        let own = prices.stock.line(item);
        let Some(line) = self.stock.line_mut(item) else {
            return;
        };
        if pricing.is_late_end(instance, item) {
            if pricing.keeps_rest(item) {
                stay_below(line, own, instance.hold_costs(item), scale);
                stay_above(line, own, instance.backlog_costs(item), scale);
            } else {
                clear(line);
            }
            return;
        }
        match pricing.get(item) {
            Some(_) => {
                stay_below(line, own, instance.hold_costs(item), scale);
                if pricing.is_backlogged(item) {
                    stay_owed(line, own, prices.back.line(item));
                }
            }
            None if pricing.grouping().is_some() => {
                stay_below(line, own, instance.hold_costs(item), scale);
                stay_above(line, own, instance.backlog_costs(item), scale);
            }
            None => clear(line),
        }
    }

    // What arrives of an item in each period, less what is demanded.
    fn write_arrivals(&mut self, instance: &Instance, plan: &Average, item: u32)
        requires low { 1 ≤ item }
        requires high { item ≤ item_count instance.now }
    {
        let lead = instance.lead(item) as usize;
        if let Some(line) = self.stock.line_mut(item) {
            write_room(line, instance.demands(item));
            let start = line.len().min(lead);
            add_times(&mut line[start..], plan.units.line(item), 1);
        }
    }

    // What an item takes of its components.
    fn take_parts(&mut self, instance: &Instance, plan: &Average, item: u32)
        requires low { 1 ≤ item }
        requires high { item ≤ item_count instance.now }
    {
        for need in instance.needs(item) {
            let units = less(0, of_amount(need.quantity));
            self.stock
                .add_times(need.item, plan.units.line(item), units);
        }
    }

    // What of the backlogs of echelons isn't in those of the items that they go into.
    fn add_owed(&mut self, instance: &Instance, plan: &Average, item: u32)
        requires low { 1 ≤ item }
        requires high { item ≤ item_count instance.now }
    {
        self.stock.add_times(item, plan.owed.line(item), 1);
        for need in instance.needs(item) {
            let units = less(0, of_amount(need.quantity));
            self.stock.add_times(need.item, plan.owed.line(item), units);
        }
    }

    // The least end stock of an item isn't counted in its last stock.
    fn take_end(&mut self, instance: &Instance, item: u32)
        requires low { 1 ≤ item }
        requires high { item ≤ item_count instance.now }
    {
        let units = times(UNIT, of_amount(instance.end_min(item)));
        let stock = self.stock.get(item, instance.periods());
        self.stock.put(item, instance.periods(), less(stock, units));
    }

    // What falls short of an item whose share goes up with the price of its stock is added where its lots arrive.
    fn add_short(&mut self, instance: &Instance, pricing: &Pricing, plan: &Average, item: u32)
        requires low { 1 ≤ item }
        requires high { item ≤ item_count instance.now }
    {
        if !pricing.keeps_rest(item) {
            return;
        }
        let lead = instance.lead(item) as usize;
        if let Some(line) = self.stock.line_mut(item) {
            let stop = line.len().saturating_sub(1);
            let start = stop.min(lead);
            add_times(&mut line[start..stop], plan.owed.line(item), 1);
        }
    }

    // What is in stock of each item where items are planned in groups, or more where it may be owed: what falls short of what is on time
    // is none of it.
    fn write_grouped_stock(&mut self, instance: &Instance, pricing: &Pricing, plan: &Average) {
        for item in 1..instance.items() + 1 {
            self.write_arrivals(instance, plan, item);
        }
        for item in 1..instance.items() + 1 {
            self.take_parts(instance, plan, item);
        }
        for item in 1..instance.items() + 1 {
            let opening = times(UNIT, of_amount(instance.opening(item)));
            if let Some(line) = self.stock.line_mut(item) {
                add_up(line, opening);
            }
        }
        let is_late = pricing.late_grouping().is_some();
        for item in 1..instance.items() + 1 {
            if is_late {
                self.take_end(instance, item);
                self.add_short(instance, pricing, plan, item);
            } else {
                self.add_owed(instance, plan, item);
            }
        }
    }

    // What the components of all items have in stock for them isn't their own.
    fn take_all_stocks(&mut self, instance: &Instance, plan: &Average) {
        for item in 1..instance.items() + 1 {
            self.take_stocks(instance, plan, item);
        }
    }

    // The subgradient of the stock prices: what of each echelon isn't in those of the items that it goes into.
    fn write_stock(
        &mut self,
        instance: &Instance,
        pricing: &Pricing,
        prices: &DualPrices,
        plan: &Average,
    ) {
        if pricing.grouping().is_some() {
            self.write_grouped_stock(instance, pricing, plan);
        } else {
            self.stock.take_from(&plan.stocks);
            self.take_all_stocks(instance, plan);
        }
        for item in 1..instance.items() + 1 {
            self.keep_stock(instance, pricing, prices, item);
        }
    }

    // What is owed of an end product is owed of its components.
    fn take_owed(&mut self, instance: &Instance, pricing: &Pricing, plan: &Average, end: u32) {
        for item in 1..instance.items() + 1 {
            let weight = pricing.weight(item, end);
            if weight > 0 {
                self.back
                    .add_times(item, plan.owed.line(end), less(0, weight));
            }
        }
    }

    // A direction of a price of backlog is 0 where it can't be changed, as of an end product, which keeps what is left.
    fn keep_back(&mut self, instance: &Instance, pricing: &Pricing, prices: &DualPrices, item: u32)
        requires low { 1 ≤ item }
        requires high { item ≤ item_count instance.now }
    {
        let own = prices.back.line(item);
        if let Some(line) = self.back.line_mut(item) {
            if instance.has_backlog_cost(item) || !pricing.is_backlogged(item) {
                clear(line);
            } else {
                stay_positive(line, own);
            }
        }
    }

    // What is owed of all end products is owed of their components.
    fn take_all_owed(&mut self, instance: &Instance, pricing: &Pricing, plan: &Average) {
        for end in 1..instance.items() + 1 {
            if instance.has_backlog_cost(end) {
                self.take_owed(instance, pricing, plan, end);
            }
        }
    }

    // What is owed of each echelon and of none of the end products that it goes into.
    fn write_back(
        &mut self,
        instance: &Instance,
        pricing: &Pricing,
        prices: &DualPrices,
        plan: &Average,
    ) {
        self.back.take_from(&plan.owed);
        self.take_all_owed(instance, pricing, plan);
        for item in 1..instance.items() + 1 {
            self.keep_back(instance, pricing, prices, item);
        }
    }

    // By how much the least lots of the setups of an item are larger than its lots.
    fn write_lot(&mut self, instance: &Instance, prices: &DualPrices, plan: &Average, item: u32)
        requires low { 1 ≤ item }
        requires high { item ≤ item_count instance.now }
    {
        let least = of_amount(instance.min_lot(item));
        if least == 0 {
            return;
        }
        if let Some(line) = self.lot.line_mut(item) {
            clear(line);
            add_times(line, plan.setups.line(item), least);
            add_times(line, plan.units.line(item), -1);
            stay_positive(line, prices.lot.line(item));
        }
    }

    // By how much the lots of an item are larger than the largest lots of its setups.
    fn write_link(
        &mut self,
        instance: &Instance,
        pricing: &Pricing,
        prices: &DualPrices,
        plan: &Average,
        item: u32,
    )
        requires low { 1 ≤ item }
        requires high { item ≤ item_count instance.now }
    {
        if !pricing.is_linked(instance, item) {
            return;
        }
        let most = less(0, most_by_setup(instance, item));
        let Some(line) = self.link.line_mut(item) else {
            return;
        };
        clear(line);
        add_times(line, plan.units.line(item), 1);
        add_times(line, plan.setups.line(item), most);
        stay_positive(line, prices.link.line(item));
        for period in 1..instance.periods() + 1 {
            if self.link.get(item, period) <= 0 {
                continue;
            }
            let price = prices.link.get(item, period);
            if price >= prices.most_link(instance, item, period) {
                self.link.put(item, period, 0);
            }
        }
    }

    // What falls short of a component because of an item, for each unit that falls short of it, is added in the periods whose lots arrive
    // in time for it.
    fn induce(&mut self, instance: &Instance, grouping: &Grouping, item: u32, need: Need) {
        let units = of_amount(need.quantity);
        for period in 1..instance.periods() + 1 {
            if at(grouping.on_time(need.item), period) > 0 {
                let arrival = arrival_of(instance, need.item, period);
                let more = times(units, self.share.get(item, arrival));
                let sum = plus(self.share.get(need.item, period), more);
                self.share.put(need.item, period, sum);
            }
        }
    }

    // What falls short of an item and not because of those that it goes into, which is there before. The share of an item that keeps
    // what is left isn't changed.
    fn keep_share(&mut self, grouping: &Grouping, prices: &DualPrices, plan: &Average, item: u32) {
        let Some(line) = self.share.line_mut(item) else {
            return;
        };
        if grouping.is_last(item) || !grouping.is_late(item) {
            clear(line);
            return;
        }
        for (cell, units) in line.iter_mut().zip(plan.owed.line(item)) {
            *cell = less(*units, *cell);
        }
        stay_positive(line, prices.share.line(item));
    }

    // By how much more falls short of all items than of those that they go into: items before their components.
    fn write_shares(
        &mut self,
        instance: &Instance,
        pricing: &Pricing,
        grouping: &Grouping,
        prices: &DualPrices,
        plan: &Average,
    ) {
        self.share.clear();
        for item in pricing.order() {
            if grouping.is_last(*item) {
                self.share.add_times(*item, plan.owed.line(*item), 1);
            }
            for need in components_of(instance, *item) {
                self.induce(instance, grouping, *item, *need);
            }
            self.keep_share(grouping, prices, plan, *item);
        }
    }

    // What the least lots of all items miss.
    fn write_lots(&mut self, instance: &Instance, prices: &DualPrices, plan: &Average) {
        for item in 1..instance.items() + 1 {
            self.write_lot(instance, prices, plan, item);
        }
    }

    // By how much the lots of all items are larger than their largest lots.
    fn write_links(
        &mut self,
        instance: &Instance,
        pricing: &Pricing,
        prices: &DualPrices,
        plan: &Average,
    ) {
        for item in 1..instance.items() + 1 {
            self.write_link(instance, pricing, prices, plan, item);
        }
    }

    // Writes the subgradient of the Lagrangean bound at these prices and plans.
    pub(crate) fn write(&mut self, node: NodePricing<'_>, prices: &DualPrices, plan: &Average) {
        let NodePricing {
            instance,
            pricing,
            ..
        } = node;
        self.write_capacity(instance, prices, plan);
        self.write_stock(instance, pricing, prices, plan);
        if pricing.may_owe() {
            self.write_back(instance, pricing, prices, plan);
        }
        if let Some(grouping) = pricing.late_grouping() {
            self.write_shares(instance, pricing, grouping, prices, plan);
            self.write_lots(instance, prices, plan);
        }
        self.write_links(instance, pricing, prices, plan);
    }

    // Other prices: some further, by such a part of a whole of these directions, each times the steps of its price.
    pub(crate) fn go(&self, from: &DualPrices, to: &mut DualPrices, part: i128, whole: i128) {
        let rate = Rate::new(part, whole);
        let far = Rate::new(part.saturating_mul(FAR), whole);
        self.steps.go(
            &mut to.capacity,
            &from.capacity,
            &self.capacity,
            part,
            whole,
        );
        to.stock.go(&from.stock, &self.stock, rate);
        to.back.go(&from.back, &self.back, rate);
        to.share.go(&from.share, &self.share, far);
        to.lot.go(&from.lot, &self.lot, far);
        to.link.go(&from.link, &self.link, far);
        to.capacity.cut_at_zero();
        to.lot.cut_at_zero();
        to.link.cut_at_zero();
    }
}

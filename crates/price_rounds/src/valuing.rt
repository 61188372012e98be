// What the leaf of prices says, and the single-item plans behind it.
ghost use Rattle.std.specs.Prelude.{◌≤◌};
ghost use Rattle.lot_sizing.specs.Problem.{item_count};

use crate::groups::GroupPlanning;
use crate::lots::{Average, Spare};
use integer_grids::numbers::{at, dot, dot_amounts, less, wide};
use lot_model::Instance;
use node_setups::Held;
use price_groups::Grouping;
use price_items::{Costs, DualPrices, Item, NodePricing, Serving};
use std::alloc::{AllocError, Global};

// The lists in which single items are planned, one after the other.
#[derive(Drop)]
pub(crate) struct Planning {
    alloc: Global,
    costs: Costs,
    serving: Serving,
    // What groups are planned with, where they are.
    groups: Option<GroupPlanning>,
}

// The right sides of the bounds of an item's setups that are at least 1.
fn fixed_value(fees: &[i64], held: &[Held]) -> i128 {
    let mut sum = 0i128;
    for (fee, held) in fees.iter().zip(held) {
        if let Held::AtLeastOne(_) = held {
            sum = sum.saturating_add(i128::from(*fee));
        }
    }
    sum
}

// The first period in which a unit costs nothing.
fn first_free(unit: &[i64]) -> Option<u32> {
    let mut period = 0u32;
    for cost in unit {
        period = period.saturating_add(1);
        if *cost == 0 {
            return Some(period);
        }
    }
    None
}

// The sum of two numbers; None where there isn't one of them, or it doesn't fit.
fn added(one: Option<i128>, other: Option<i128>) -> Option<i128> {
    match (one, other) {
        (Some(one), Some(other)) => one.checked_add(other),
        _ => None,
    }
}

// The right sides of all capacities.
fn capacity_value(instance: &Instance, prices: &DualPrices) -> i128 {
    let mut sum = 0i128;
    for resource in 1..instance.resources() + 1 {
        let line = prices.capacity.line(resource);
        sum = sum.saturating_add(dot_amounts(line, instance.capacities(resource)));
    }
    sum
}

impl Planning {
    // It takes no memory.
    pub(crate) fn new(alloc: Global) -> Planning {
        Planning {
            alloc,
            costs: Costs::new(alloc),
            serving: Serving::new(alloc),
            groups: None,
        }
    }

    // The right side of an item's cut, with that of the balances by which prices were moved; None where there is no such cut,
    // or where that doesn't fit.
    fn item_value(&self, item: &Item) -> Option<i128> {
        let costs = &self.costs;
        let held = dot(&costs.hold, &item.left);
        let asked = dot(&costs.shift, &item.demand);
        let opened = wide(at(&costs.shift, 1), item.opening);
        let ended = wide(costs.lift, item.end_max);
        self.serving
            .cost()?
            .checked_add(held)?
            .checked_sub(asked)?
            .checked_sub(ended)?
            .checked_add(opened)
    }

    // What is made beyond all demand, up to the largest end stock, where the cheapest unit would cost less than nothing.
    fn spare(&self, item: &Item) -> Option<Spare> {
        let costs = &self.costs;
        if costs.lift <= 0 {
            return None;
        }
        let period = first_free(&costs.unit)?;
        let last = u32::try_from(item.left.len()).unwrap_or(0);
        let units = less(item.end_max, at(&item.left, last)).max(0);
        Some(Spare { period, units })
    }

    // What an item adds to the right side of the leaf; None where that doesn't fit. Its plan is written where it has one.
    fn value_of(
        &mut self,
        node: NodePricing<'_>,
        prices: &DualPrices,
        number: u32,
        plan: &mut Average,
    ) -> Result<Option<i128>, AllocError>
        requires low { 1 ≤ number }
        requires high { number ≤ item_count node.instance.now }
    {
        let NodePricing {
            instance,
            pricing,
            fixed,
        } = node;
        let mut sum = Some(0i128);
        match pricing.get(number) {
            Some(item) => {
                self.costs.write(instance, item, prices, fixed)?;
                self.serving.serve_all(item, &self.costs)?;
                plan.write_item(item, &self.serving.places, self.spare(item), fixed);
                sum = self.item_value(item);
            }
            None => self.costs.write_fees(instance, prices, number)?,
        }
        let more = fixed_value(&self.costs.fee, fixed.line(number));
        Ok(added(sum, Some(more)))
    }

    // What an item costs that is planned alone beside groups: prices of its stock are moved to its units. Its plan is written. None where
    // that doesn't fit.
    fn alone_value(
        &mut self,
        node: NodePricing<'_>,
        item: &Item,
        prices: &DualPrices,
        plan: &mut Average,
    ) -> Result<Option<i128>, AllocError> {
        self.costs.write(node.instance, item, prices, node.fixed)?;
        self.costs.move_all(item.backlogged)?;
        self.serving.serve_all(item, &self.costs)?;
        plan.write_item(item, &self.serving.places, self.spare(item), node.fixed);
        Ok(self.serving.cost())
    }

    // What all items cost that are planned alone beside groups, and the setups that the path fixes.
    fn rest_value(
        &mut self,
        node: NodePricing<'_>,
        prices: &DualPrices,
        plan: &mut Average,
    ) -> Result<Option<i128>, AllocError> {
        let NodePricing {
            instance,
            pricing,
            fixed,
        } = node;
        let mut sum = Some(0i128);
        for number in 1..instance.items() + 1 {
            if let Some(item) = pricing.get(number) {
                if pricing.is_backlogged(number) {
                    let cost = self.alone_value(node, item, prices, plan)?;
                    sum = added(sum, cost);
                }
            }
            self.costs.write_fees(instance, prices, number)?;
            sum = added(sum, Some(fixed_value(&self.costs.fee, fixed.line(number))));
        }
        Ok(sum)
    }

    // What the leaf of prices says, times the scale, where items are planned in groups.
    fn grouped_value(
        &mut self,
        node: NodePricing<'_>,
        grouping: &Grouping,
        prices: &DualPrices,
        plan: &mut Average,
    ) -> Result<Option<i128>, AllocError> {
        let alloc = self.alloc;
        let mut groups = match self.groups.take() {
            Some(groups) => groups,
            None => GroupPlanning::new(alloc, node.instance)?,
        };
        let sum = groups.value(alloc, node, grouping, prices, plan)?;
        self.groups = Some(groups);
        let rest = self.rest_value(node, prices, plan)?;
        let used = 0i128.checked_sub(capacity_value(node.instance, prices));
        Ok(added(added(Some(sum), rest), used))
    }

    // What the leaf of prices says, times the scale; None where that doesn't fit. The plan is that of all items by themselves.
    pub(crate) fn value(
        &mut self,
        node: NodePricing<'_>,
        prices: &DualPrices,
        plan: &mut Average,
    ) -> Result<Option<i128>, AllocError> {
        if let Some(grouping) = node.pricing.grouping() {
            return self.grouped_value(node, grouping, prices, plan);
        }
        let mut sum = 0i128.checked_sub(capacity_value(node.instance, prices));
        for number in 1..node.instance.items() + 1 {
            let more = self.value_of(node, prices, number, plan)?;
            sum = added(sum, more);
        }
        Ok(sum)
    }
}

// The least that has to be made of each item up to each period, in any plan.

use crate::table::Table;
use explain_lookup::{demand_of, end_min_of, lead_of, may_be_late, opening_of, per_unit_of};
use lot_model::Instance;
use std::alloc::{AllocError, Global};

/// The least amounts, summed over the periods up to each.
#[derive(Drop)]
pub(crate) struct Needs {
    // What has to have gone out of the stock of an item by the end of a period.
    outgoing: Table,
    // What has to be started of it.
    started: Table,
}

impl Needs {
    /// What at least has gone out of the stock of an item by the end of a period.
    pub(crate) fn outgoing(&self, item: u32, period: u32) -> u128 {
        self.outgoing.at(item, period)
    }

    /// How many units of an item are started at least by the end of a period.
    pub(crate) fn started(&self, item: u32, period: u32) -> u128 {
        self.started.at(item, period)
    }
}

/// The items, each after all that it goes into.
pub(crate) fn in_order(alloc: Global, instance: &Instance) -> Result<Vec<u32>, AllocError> {
    let mut order = Vec::new(alloc);
    for rank in 0..instance.items() + 1 {
        add_items_of_rank(&mut order, instance.ranks(), rank)?;
    }
    Ok(order)
}

// Adds the items of a rank.
fn add_items_of_rank(order: &mut Vec<u32>, ranks: &[u32], rank: u32) -> Result<(), AllocError> {
    let mut item = 0u32;
    for other in ranks {
        item = item.saturating_add(1);
        if *other == rank {
            order.push(item)?;
        }
    }
    Ok(())
}

// What the started lots of other items take of an item by the end of a period.
fn used_by_others(instance: &Instance, started: &Table, item: u32, period: u32) -> u128 {
    let mut total = 0u128;
    for other in 1..instance.items() + 1 {
        let units = u128::from(per_unit_of(instance, item, other));
        total = total.saturating_add(units.saturating_mul(started.at(other, period)));
    }
    total
}

// Demand up to each period, in the place of what goes out. What may be late counts in the last period alone.
fn write_demand(needs: &mut Needs, instance: &Instance, item: u32) {
    let (last, is_late) = (instance.periods(), may_be_late(instance, item));
    let mut total = 0u128;
    for period in 1..last + 1 {
        total = total.saturating_add(u128::from(demand_of(instance, item, period)));
        if !is_late || period == last {
            needs.outgoing.write(item, period, total);
        }
    }
}

// Adds what others take of an item, and the least stock at the end.
fn add_uses(needs: &mut Needs, instance: &Instance, item: u32) {
    let last = instance.periods();
    for period in 1..last + 1 {
        let used = used_by_others(instance, &needs.started, item, period);
        let end = if period == last {
            u128::from(end_min_of(instance, item))
        } else {
            0
        };
        let total = needs.outgoing.at(item, period);
        needs.outgoing.write(item, period, total.saturating_add(used).saturating_add(end));
    }
}

// What has to be started so that it arrives in time.
fn write_started(needs: &mut Needs, instance: &Instance, item: u32) {
    let opening = u128::from(opening_of(instance, item));
    let lead = lead_of(instance, item);
    let mut most = 0u128;
    for period in 1..instance.periods() + 1 {
        let arrival = period.saturating_add(lead);
        let wanted = needs.outgoing.at(item, arrival).saturating_sub(opening);
        most = most.max(wanted);
        needs.started.write(item, period, most);
    }
}

/// The least that each item needs by each period.
pub(crate) fn needs_of(
    alloc: Global,
    instance: &Instance,
    order: &[u32],
) -> Result<Needs, AllocError> {
    let (items, periods) = (instance.items(), instance.periods());
    let mut needs = Needs {
        outgoing: Table::new(alloc, items, periods)?,
        started: Table::new(alloc, items, periods)?,
    };
    for item in order {
        write_demand(&mut needs, instance, *item);
        add_uses(&mut needs, instance, *item);
        write_started(&mut needs, instance, *item);
    }
    Ok(needs)
}

// The most that can be made of each item, in any plan.

use explain_lookup::{
    capacity_of, demand_of, end_max_of, max_lot_of, min_lot_of, opening_of, per_unit_of,
    setup_time_of, unit_time_of,
};
use lot_model::Instance;
use std::alloc::{AllocError, Global};

/// What stock, demand and use let be made of items in all; nothing where the opening stock is too large.
#[derive(Drop)]
pub(crate) struct Totals {
    made: Vec<Option<u128>>,
}

impl Totals {
    /// The most that is made of an item in all. None where its opening stock can't be used up.
    pub(crate) fn most(&self, item: u32) -> Option<u128> {
        let place = item.saturating_sub(1) as usize;
        match self.made.get(place) {
            Some(most) => *most,
            None => Some(0),
        }
    }

    // Writes the most of an item.
    fn write(&mut self, item: u32, most: Option<u128>) {
        let place = item.saturating_sub(1) as usize;
        if let Some(cell) = self.made.get_mut(place) {
            *cell = most;
        }
    }
}

/// Demand of an item in all periods.
pub(crate) fn whole_demand(instance: &Instance, item: u32) -> u128 {
    let mut total = 0u128;
    for period in 1..instance.periods() + 1 {
        total = total.saturating_add(u128::from(demand_of(instance, item, period)));
    }
    total
}

/// The most that others take of an item in all.
pub(crate) fn whole_use(instance: &Instance, totals: &Totals, item: u32) -> u128 {
    let mut total = 0u128;
    for other in 1..instance.items() + 1 {
        let units = u128::from(per_unit_of(instance, item, other));
        let made = totals.most(other).unwrap_or(0);
        total = total.saturating_add(units.saturating_mul(made));
    }
    total
}

/// The most that is made of each item.
pub(crate) fn totals_of(
    alloc: Global,
    instance: &Instance,
    order: &[u32],
) -> Result<Totals, AllocError> {
    let mut made = Vec::new(alloc);
    made.resize(instance.items() as usize, Some(0u128))?;
    let mut totals = Totals { made };
    for item in order {
        let room = whole_demand(instance, *item)
            .saturating_add(whole_use(instance, &totals, *item))
            .saturating_add(u128::from(end_max_of(instance, *item)));
        let opening = u128::from(opening_of(instance, *item));
        totals.write(*item, room.checked_sub(opening));
    }
    Ok(totals)
}

// The most units of an item for which a resource has time in a period, were they alone there.
fn most_on(instance: &Instance, item: u32, resource: u32, period: u32) -> u64 {
    let time = capacity_of(instance, resource, period);
    let setup = setup_time_of(instance, item, resource);
    if setup > time {
        return 0;
    }
    time.saturating_sub(setup)
        .checked_div(unit_time_of(instance, item, resource))
        .unwrap_or(u64::MAX)
}

/// The most units of an item that one period can make, were it alone; less than the least lot is none.
pub(crate) fn most_in(instance: &Instance, item: u32, period: u32) -> u64 {
    let mut most = max_lot_of(instance, item);
    for resource in 1..instance.resources() + 1 {
        most = most.min(most_on(instance, item, resource, period));
    }
    if most < min_lot_of(instance, item) {
        0
    } else {
        most
    }
}

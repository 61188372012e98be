// A plain model beside one with lead times and bounds on lots.
ghost use Rattle.std.specs.Prelude.{◌≤◌};
ghost use Rattle.lot_sizing.specs.Problem.{item_count};

use crate::shop::{Line, Load, Machine, Product, Shop};
use integer_grids::numbers::{at, plus};
use lot_model::{Draft, DraftItem, DraftNeed, DraftRefusal, DraftResource, DraftUse, Instance};
use std::alloc::{AllocError, Global};

// A setup, and a unit that is owed, costs so much where lots would arrive too late.
const DEAREST: i64 = 1_000_000_000;

fn item_name(alloc: Global, item: u32) -> Result<String, AllocError> {
    format!(in alloc; "i{item}")
}

fn resource_name(alloc: Global, resource: u32) -> Result<String, AllocError> {
    format!(in alloc; "r{resource}")
}

// What is asked for up to a period.
fn total_up_to(list: &[i64], period: u32) -> i64 {
    let mut total = 0;
    for place in 1..period.saturating_add(1) {
        total = plus(total, at(list, place));
    }
    total
}

// The demand of an item: each unit is asked for when its lot has to start, the first ones at once.
fn demand_of(alloc: Global, product: &Product, periods: u32) -> Result<Vec<i64>, AllocError> {
    let mut list = Vec::new(alloc);
    for period in 1..periods.saturating_add(1) {
        let arrival = period.saturating_add(product.lead);
        list.push(if period == 1 {
            total_up_to(&product.demand, arrival.min(periods))
        } else {
            at(&product.demand, arrival)
        })?;
    }
    Ok(list)
}

// Numbers of the periods in which lots arrive that start in each period, and another number where they would arrive too late.
fn arriving_of(
    alloc: Global,
    list: &[i64],
    lead: u32,
    periods: u32,
    other: i64,
) -> Result<Vec<i64>, AllocError> {
    let mut moved = Vec::new(alloc);
    for period in 1..periods.saturating_add(1) {
        let arrival = period.saturating_add(lead);
        moved.push(if arrival <= periods {
            at(list, arrival)
        } else {
            other
        })?;
    }
    Ok(moved)
}

// What setups cost, which are made where lots start.
fn setup_costs_of(alloc: Global, product: &Product, periods: u32) -> Result<Vec<i64>, AllocError> {
    let mut list = Vec::new(alloc);
    for period in 1..periods.saturating_add(1) {
        list.push(if period.saturating_add(product.lead) <= periods {
            at(&product.setup, period)
        } else {
            DEAREST
        })?;
    }
    Ok(list)
}

fn needs_of(alloc: Global, lines: &[Line]) -> Result<Vec<DraftNeed>, AllocError> {
    let mut needs = Vec::new(alloc);
    for line in lines {
        needs.push(DraftNeed {
            item: item_name(alloc, line.item)?,
            quantity: line.units,
        })?;
    }
    Ok(needs)
}

fn uses_of(alloc: Global, loads: &[Load]) -> Result<Vec<DraftUse>, AllocError> {
    let mut uses = Vec::new(alloc);
    for load in loads {
        uses.push(DraftUse {
            resource: resource_name(alloc, load.resource)?,
            unit: load.unit,
            setup: load.setup,
        })?;
    }
    Ok(uses)
}

// What units that are owed cost, if the item may be late.
fn owed_of(alloc: Global, product: &Product, periods: u32) -> Result<Option<Vec<i64>>, AllocError> {
    if !product.late {
        return Ok(None);
    }
    let list = arriving_of(alloc, &product.owed, product.lead, periods, DEAREST)?;
    Ok(Some(list))
}

fn item_of(alloc: Global, product: &Product, periods: u32) -> Result<DraftItem, AllocError> {
    Ok(DraftItem {
        name: item_name(alloc, product.number)?,
        demand: demand_of(alloc, product, periods)?,
        unit_cost: product.unit.as_slice().to_vec(alloc)?,
        setup_cost: setup_costs_of(alloc, product, periods)?,
        hold_cost: arriving_of(alloc, &product.hold, product.lead, periods, 0)?,
        backlog_cost: owed_of(alloc, product, periods)?,
        opening: product.opening,
        end_min: product.end_min,
        end_max: Some(product.end_max),
        lead: 0,
        min_lot: 0,
        max_lot: None,
        needs: needs_of(alloc, &product.parts)?,
        uses: uses_of(alloc, &product.loads)?,
    })
}

fn items_of(alloc: Global, shop: &Shop) -> Result<Vec<DraftItem>, AllocError> {
    let mut items = Vec::new(alloc);
    for product in shop.products.iter() {
        items.push(item_of(alloc, product, shop.periods)?)?;
    }
    Ok(items)
}

fn resources_of(alloc: Global, machines: &[Machine]) -> Result<Vec<DraftResource>, AllocError> {
    let mut resources = Vec::new(alloc);
    for machine in machines {
        resources.push(DraftResource {
            name: resource_name(alloc, machine.number)?,
            capacity: machine.time.as_slice().to_vec(alloc)?,
        })?;
    }
    Ok(resources)
}

// Whether an item has a lead time and goes into others, or has a least lot of more than a unit: then a plain model says little
// of it.
fn is_far_from_plain(product: &Product) -> bool {
    product.least > 1 || (product.lead > 0 && !product.users.is_empty())
}

// How many items are so.
fn count_far(shop: &Shop) -> usize {
    let mut count = 0usize;
    for product in shop.products.iter() {
        if is_far_from_plain(product) {
            count = count.saturating_add(1);
        }
    }
    count
}

/// A plain model with the same items, resources and periods, in which each unit is asked for when its lot has to start, and no lot
/// has a bound. The lots of a plan of it are lots of the model; they are a plan of it where lead times are of items alone that go
/// into none, and where no lot is too small or too large. None where a plain model says little: where every second item has a least
/// lot, or a lead time and goes into others, and where a number would be past its limit. The error is that memory ran out.
pub fn plain_model(alloc: Global, instance: &Instance) -> Result<Option<Instance>, AllocError> {
    let shop = Shop::of(alloc, instance)?;
    if count_far(&shop) > shop.products.len() / 2 {
        return Ok(None);
    }
    let draft = Draft {
        periods: i64::from(shop.periods),
        resources: resources_of(alloc, &shop.machines)?,
        items: items_of(alloc, &shop)?,
    };
    match Instance::from_draft(alloc, draft) {
        Ok(plain) => Ok(Some(plain)),
        Err(DraftRefusal::Refused { .. }) => Ok(None),
        Err(DraftRefusal::Memory(_)) => Err(AllocError),
    }
}

// Whether lots of an item arrive in the period in which they start, and may have any size that a plan makes.
fn is_free(instance: &Instance, item: u32) -> bool
    requires low { 1 ≤ item }
    requires high { item ≤ item_count instance.now }
{
    if instance.lead(item) > 0 || instance.min_lot(item) > 1 {
        return false;
    }
    match instance.max_lot(item) {
        Some(most) => most >= instance.largest_total(item),
        None => true,
    }
}

/// Whether no item has a lead time, or a bound on its lots that binds: each least lot is at most a unit, and each largest lot is no
/// less than what plans make of the item in all. Then the plans are those of the plain model. It takes no memory.
pub fn has_free_lots(instance: &Instance) -> bool {
    for item in 1..instance.items() + 1 {
        if !is_free(instance, item) {
            return false;
        }
    }
    true
}

// The later periods as a model that is written out.
ghost use Rattle.std.specs.Prelude.{◌≡◌, ◌≤◌, ◌<◌, map, option_map, pos, IfOk};
ghost use Rattle.lot_sizing.specs.Problem.{item_at, item_count, resource_at, resource_count};
ghost use Rattle.lot_sizing.specs.Least.{least_backlog, least_stock};
ghost use Rattle.lot_draft.specs.Raw.{raw_item, raw_model, raw_resource};
ghost use Rattle.plan_rules.specs.Cells.{Fits, table_of};
ghost use Rattle.frozen_start.specs.Rests.{rest_item, rest_items};
ghost use Rattle.replan.specs.Capped.{item_drafted, resource_drafted, rest_draft};

use crate::lines::{backlog_costs, capped, demand, later, needs, uses, whole};
use frozen_start::flows_after;
use lot_model::{Draft, DraftItem, DraftResource, Instance, an_instance_breaks_no_rule};
use plan_rules::Grid;
use std::alloc::{AllocError, Global};

// The largest lot of an item, if there is a bound.
fn max_lot(instance: &Instance, item: u32) -> Option<i64>
    requires low { 1 ≤ item }
    requires high { item ≤ item_count instance.now }
    ensures { result ≡ option_map (λ x. pos x) (item_at instance.now item).max_lot }
{
    match instance.max_lot(item) {
        Some(most) => Some(whole(most)),
        None => None,
    }
}

// An item in the later periods: it begins with what is left, and what is owed is asked for at once.
fn item(
    alloc: Global,
    instance: &Instance,
    make: &Grid,
    item: u32,
    first: u32,
) -> Result<DraftItem, AllocError>
    requires fits { Fits instance.now make.now }
    requires low { 1 ≤ item }
    requires high { item ≤ item_count instance.now }
    requires inside { first < instance.now.periods }
    ensures { let m = instance.now in IfOk result
        (λ made. raw_item made
        ≡ item_drafted m
        (rest_item first (least_stock m (table_of make.now) item first)
        (least_backlog m (table_of make.now) item first) (item_at m item))) }
{
    an_instance_breaks_no_rule(instance);
    let flows = flows_after(instance, make, item, first);
    Ok(DraftItem {
        name: String::from_str(alloc, instance.item_name(item))?,
        demand: demand(alloc, instance.demands(item), first, flows.backlog())?,
        unit_cost: later(alloc, instance.unit_costs(item), first)?,
        setup_cost: later(alloc, instance.setup_costs(item), first)?,
        hold_cost: later(alloc, instance.hold_costs(item), first)?,
        backlog_cost: backlog_costs(alloc, instance, item, first)?,
        opening: capped(flows.stock()),
        end_min: whole(instance.end_min(item)),
        end_max: Some(whole(instance.end_max(item))),
        lead: whole(u64::from(instance.lead(item))),
        min_lot: whole(instance.min_lot(item)),
        max_lot: max_lot(instance, item),
        needs: needs(alloc, instance, instance.needs(item))?,
        uses: uses(alloc, instance, instance.uses(item))?,
    })
}

// The items in the later periods.
fn items(
    alloc: Global,
    instance: &Instance,
    make: &Grid,
    first: u32,
) -> Result<Vec<DraftItem>, AllocError>
    requires fits { Fits instance.now make.now }
    requires inside { first < instance.now.periods }
    ensures { let m = instance.now in IfOk result
        (λ list. map raw_item list.items
        ≡ map (item_drafted m) (rest_items m (table_of make.now) first 1 m.items)) }
{
    let mut list = Vec::new(alloc);
    for number in 1..instance.items() + 1 {
        list.push(item(alloc, instance, make, number, first)?)?;
    }
    Ok(list)
}

// A resource in the later periods.
fn resource(
    alloc: Global,
    instance: &Instance,
    resource: u32,
    first: u32,
) -> Result<DraftResource, AllocError>
    requires low { 1 ≤ resource }
    requires high { resource ≤ resource_count instance.now }
    ensures { IfOk result (λ made. raw_resource made
        ≡ resource_drafted first (resource_at instance.now resource)) }
{
    Ok(DraftResource {
        name: String::from_str(alloc, instance.resource_name(resource))?,
        capacity: later(alloc, instance.capacities(resource), first)?,
    })
}

// The resources in the later periods.
fn resources(
    alloc: Global,
    instance: &Instance,
    first: u32,
) -> Result<Vec<DraftResource>, AllocError>
    ensures { IfOk result (λ list. map raw_resource list.items
        ≡ map (resource_drafted first) instance.now.resources) }
{
    let mut list = Vec::new(alloc);
    for number in 1..instance.resources() + 1 {
        list.push(resource(alloc, instance, number, first)?)?;
    }
    Ok(list)
}

/// The later periods after the quantities of a start, written out as a model. A number past the largest of a draft is
/// written as that one.
pub fn draft(
    alloc: Global,
    instance: &Instance,
    make: &Grid,
    first: u32,
) -> Result<Draft, AllocError>
    requires fits { Fits instance.now make.now }
    requires inside { first < instance.now.periods }
    ensures { IfOk result (λ made. raw_model made
        ≡ rest_draft instance.now (table_of make.now) first) }
{
    an_instance_breaks_no_rule(instance);
    Ok(Draft {
        periods: whole(u64::from(instance.periods() - first)),
        resources: resources(alloc, instance, first)?,
        items: items(alloc, instance, make, first)?,
    })
}

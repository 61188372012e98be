// The problem that a draft stands for.
ghost use Rattle.std.specs.Prelude.{◌≡◌, ◌≤◌, length, map, option_map, IfOk, unwrap_or, ◌+◌};
ghost use Rattle.lot_sizing.specs.declared.limits.TheConstants.{MAX_ITEMS, MAX_PERIODS, MAX_RESOURCES};
ghost use Rattle.lot_draft.specs.Raw.{raw_item, raw_model, raw_need, raw_resource, raw_use};
ghost use Rattle.lot_draft.specs.Refusals.{item_names, resource_names};
ghost use Rattle.lot_draft.specs.Meaning.{item_of, natural, naturals, need_of, problem_of, resource_of, use_of};
ghost use Rattle.lot_model.specs.Held.{problem_of_parts};

use crate::data::{ItemData, ResourceData};
use crate::{Draft, DraftItem, DraftNeed, DraftResource, DraftUse, Need, Usage};
use lot_draft::{item_named, resource_named};
use std::alloc::{AllocError, Global};

/// What an instance is made of.
#[derive(Drop)]
pub struct Parts {
    pub periods: u32,
    pub resources: Vec<ResourceData>,
    pub items: Vec<ItemData>,
}

// A number, and 0 where it is negative.
fn natural(number: i64) -> u64
    ensures { result ≡ natural number }
{
    if number < 0 { 0 } else { number as u64 }
}

// The numbers of a list.
fn naturals(alloc: Global, numbers: &[i64]) -> Result<Vec<u64>, AllocError>
    ensures { IfOk result (λ list. list.items ≡ naturals numbers.now) }
{
    let mut list = Vec::with_capacity(alloc, numbers.len())?;
    for number in numbers {
        list.push(natural(*number))?;
    }
    Ok(list)
}

// The numbers of a list that may be absent.
fn optional_naturals(
    alloc: Global,
    numbers: &Option<Vec<i64>>,
) -> Result<Option<Vec<u64>>, AllocError>
    ensures { IfOk result (λ list. option_map (λ v. v.items) list
        ≡ option_map naturals (option_map (λ v. v.items) numbers.now)) }
{
    match numbers {
        Some(numbers) => Ok(Some(naturals(alloc, numbers)?)),
        None => Ok(None),
    }
}

// A line of components. A model is refused where no item has the name.
fn need_of(items: &[DraftItem], need: &DraftNeed) -> Need
    requires few { length items.now ≤ MAX_ITEMS }
    ensures { result ≡ need_of (item_names (map raw_item items.now)) (raw_need need.now) }
{
    Need {
        item: item_named(items, &need.item).unwrap_or(0),
        quantity: natural(need.quantity),
    }
}

// A line of resources. A model is refused where no resource has the name.
fn use_of(resources: &[DraftResource], usage: &DraftUse) -> Usage
    requires few { length resources.now ≤ MAX_RESOURCES }
    ensures { result ≡ use_of (resource_names (map raw_resource resources.now))
        (raw_use usage.now) }
{
    Usage {
        resource: resource_named(resources, &usage.resource).unwrap_or(0),
        unit: natural(usage.unit),
        setup: natural(usage.setup),
    }
}

/// The components of an item.
pub fn needs_of(
    alloc: Global,
    items: &[DraftItem],
    needs: &[DraftNeed],
) -> Result<Vec<Need>, AllocError>
    requires few { length items.now ≤ MAX_ITEMS }
    ensures { IfOk result (λ list. list.items
        ≡ map (need_of (item_names (map raw_item items.now))) (map raw_need needs.now)) }
{
    let mut list = Vec::with_capacity(alloc, needs.len())?;
    for need in needs {
        list.push(need_of(items, need))?;
    }
    Ok(list)
}

// The resources that an item takes time on.
fn uses_of(
    alloc: Global,
    resources: &[DraftResource],
    uses: &[DraftUse],
) -> Result<Vec<Usage>, AllocError>
    requires few { length resources.now ≤ MAX_RESOURCES }
    ensures { IfOk result (λ list. list.items
        ≡ map (use_of (resource_names (map raw_resource resources.now))) (map raw_use uses.now)) }
{
    let mut list = Vec::with_capacity(alloc, uses.len())?;
    for usage in uses {
        list.push(use_of(resources, usage))?;
    }
    Ok(list)
}

// The largest end stock, and where it is left out, the least one and the opening stock together.
fn end_max(item: &DraftItem) -> u64
    ensures { result ≡ unwrap_or (option_map natural item.now.end_max)
        (natural item.now.end_min + natural item.now.opening) }
{
    match item.end_max {
        Some(most) => natural(most),
        None => natural(item.end_min) + natural(item.opening),
    }
}

// A number that may be absent.
fn optional_natural(number: Option<i64>) -> Option<u64>
    ensures { result ≡ option_map natural number }
{
    match number {
        Some(number) => Some(natural(number)),
        None => None,
    }
}

// An item.
fn item_data(alloc: Global, draft: &Draft, item: &DraftItem) -> Result<ItemData, AllocError>
    requires items { length draft.now.items.items ≤ MAX_ITEMS }
    requires resources { length draft.now.resources.items ≤ MAX_RESOURCES }
    ensures { IfOk result (λ made. made
        ≡ item_of (resource_names (map raw_resource draft.now.resources.items))
        (item_names (map raw_item draft.now.items.items)) (raw_item item.now)) }
{
    Ok(ItemData {
        name: item.name.clone()?,
        demand: naturals(alloc, &item.demand)?,
        unit_cost: naturals(alloc, &item.unit_cost)?,
        setup_cost: naturals(alloc, &item.setup_cost)?,
        hold_cost: naturals(alloc, &item.hold_cost)?,
        backlog_cost: optional_naturals(alloc, &item.backlog_cost)?,
        opening: natural(item.opening),
        end_min: natural(item.end_min),
        end_max: end_max(item),
        lead: natural(item.lead),
        min_lot: natural(item.min_lot),
        max_lot: optional_natural(item.max_lot),
        needs: needs_of(alloc, &draft.items, &item.needs)?,
        uses: uses_of(alloc, &draft.resources, &item.uses)?,
    })
}

// A resource.
fn resource_data(alloc: Global, resource: &DraftResource) -> Result<ResourceData, AllocError>
    ensures { IfOk result (λ made. made ≡ resource_of (raw_resource resource.now)) }
{
    Ok(ResourceData {
        name: resource.name.clone()?,
        capacity: naturals(alloc, &resource.capacity)?,
    })
}

// The items.
fn items_data(alloc: Global, draft: &Draft) -> Result<Vec<ItemData>, AllocError>
    requires items { length draft.now.items.items ≤ MAX_ITEMS }
    requires resources { length draft.now.resources.items ≤ MAX_RESOURCES }
    ensures { IfOk result (λ list. list.items
        ≡ map (item_of (resource_names (map raw_resource draft.now.resources.items))
        (item_names (map raw_item draft.now.items.items))) (map raw_item draft.now.items.items)) }
{
    let mut list = Vec::with_capacity(alloc, draft.items.len())?;
    for item in &draft.items {
        list.push(item_data(alloc, draft, item)?)?;
    }
    Ok(list)
}

// The resources.
fn resources_data(
    alloc: Global,
    resources: &[DraftResource],
) -> Result<Vec<ResourceData>, AllocError>
    ensures { IfOk result (λ list. list.items ≡ map resource_of (map raw_resource resources.now)) }
{
    let mut list = Vec::with_capacity(alloc, resources.len())?;
    for resource in resources {
        list.push(resource_data(alloc, resource)?)?;
    }
    Ok(list)
}

/// The periods, resources and items of a draft.
pub fn parts_of(alloc: Global, draft: &Draft) -> Result<Parts, AllocError>
    requires periods { natural draft.now.periods ≤ MAX_PERIODS }
    requires items { length draft.now.items.items ≤ MAX_ITEMS }
    requires resources { length draft.now.resources.items ≤ MAX_RESOURCES }
    ensures { IfOk result (λ parts. problem_of_parts parts ≡ problem_of (raw_model draft.now)) }
{
    Ok(Parts {
        periods: natural(draft.periods) as u32,
        resources: resources_data(alloc, &draft.resources)?,
        items: items_data(alloc, draft)?,
    })
}

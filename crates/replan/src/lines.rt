// Lists of a draft: amounts, and the lines of an item.
ghost use Rattle.std.specs.Prelude.{◌≡◌, ◌≤◌, ◌<◌, ◌^◌, drop, length, map, option_map, pos, IfOk};
ghost use Rattle.std.specs.List.{All};
ghost use Rattle.lot_sizing.specs.declared.limits.TheConstants.{MAX_AMOUNT, MAX_QUANTITY};
ghost use Rattle.lot_sizing.specs.Problem.{AllAtMost, item_at, item_count, resource_count};
ghost use Rattle.lot_draft.specs.Raw.{raw_need, raw_use};
ghost use Rattle.lot_model.specs.Drafted.{need_written, use_written, wholes};
ghost use Rattle.frozen_start.specs.Rests.{more_in_front};
ghost use Rattle.replan.specs.Capped.{cap, most_written};

use lot_model::{DraftNeed, DraftUse, Instance, Need, Usage};
use std::alloc::{AllocError, Global};

/// A number of a draft, and the largest one where it is larger.
pub fn capped(amount: u128) -> i64
    ensures { result ≡ cap most_written (pos amount) }
{
    amount.min(i64::MAX as u128) as i64
}

/// A number of a draft that is within its limit.
pub fn whole(amount: u64) -> i64
    requires { amount < 2 ^ 63 }
    ensures { result ≡ pos amount }
{
    amount as i64
}

/// The amounts of a list from a period on, after so many that are left out.
pub fn later(alloc: Global, amounts: &[u64], first: u32) -> Result<Vec<i64>, AllocError>
    requires { AllAtMost MAX_AMOUNT amounts.now }
    ensures { IfOk result (λ list. list.items ≡ wholes (drop first amounts.now)) }
{
    let mut list = Vec::new(alloc);
    for place in first as usize..amounts.len() {
        let amount = whole(amounts[place]);
        list.push(amount)?;
    }
    Ok(list)
}

/// The same, with what is owed on top of the first amount.
pub fn demand(
    alloc: Global,
    amounts: &[u64],
    first: u32,
    owed: u128,
) -> Result<Vec<i64>, AllocError>
    requires small { AllAtMost MAX_AMOUNT amounts.now }
    requires inside { first < length amounts.now }
    requires owed { owed < 2 ^ 127 }
    ensures { IfOk result (λ list. list.items
        ≡ map (cap most_written) (wholes (more_in_front owed (drop first amounts.now)))) }
{
    let mut list = later(alloc, amounts, first)?;
    let asked = amounts[first as usize] as u128 + owed;
    list[0] = capped(asked);
    Ok(list)
}

/// The costs of what is owed of an item from a period on, where it may be late.
pub fn backlog_costs(
    alloc: Global,
    instance: &Instance,
    item: u32,
    first: u32,
) -> Result<Option<Vec<i64>>, AllocError>
    requires low { 1 ≤ item }
    requires high { item ≤ item_count instance.now }
    ensures { IfOk result (λ made. option_map (λ list. list.items) made
        ≡ option_map wholes (option_map (drop first) (item_at instance.now item).backlog_cost)) }
{
    match instance.backlog_costs(item) {
        Some(prices) => Ok(Some(later(alloc, prices, first)?)),
        None => Ok(None),
    }
}

// A line of components.
fn need(alloc: Global, instance: &Instance, line: Need) -> Result<DraftNeed, AllocError>
    requires low { 1 ≤ line.item }
    requires high { line.item ≤ item_count instance.now }
    requires small { line.quantity ≤ MAX_QUANTITY }
    ensures { IfOk result (λ made. raw_need made ≡ need_written instance.now line) }
{
    Ok(DraftNeed {
        item: String::from_str(alloc, instance.item_name(line.item))?,
        quantity: whole(line.quantity),
    })
}

/// The lines of components.
pub fn needs(
    alloc: Global,
    instance: &Instance,
    lines: &[Need],
) -> Result<Vec<DraftNeed>, AllocError>
    requires there { All (λ line. (1 ≤ line.item) × (line.item ≤ item_count instance.now))
        lines.now }
    requires small { All (λ line. (1 ≤ line.quantity) × (line.quantity ≤ MAX_QUANTITY)) lines.now }
    ensures { IfOk result (λ list. map raw_need list.items
        ≡ map (need_written instance.now) lines.now) }
{
    let mut list = Vec::new(alloc);
    for line in lines {
        list.push(need(alloc, instance, *line)?)?;
    }
    Ok(list)
}

// A line of resources.
fn usage(alloc: Global, instance: &Instance, line: Usage) -> Result<DraftUse, AllocError>
    requires low { 1 ≤ line.resource }
    requires high { line.resource ≤ resource_count instance.now }
    requires unit { line.unit ≤ MAX_AMOUNT }
    requires setup { line.setup ≤ MAX_AMOUNT }
    ensures { IfOk result (λ made. raw_use made ≡ use_written instance.now line) }
{
    Ok(DraftUse {
        resource: String::from_str(alloc, instance.resource_name(line.resource))?,
        unit: whole(line.unit),
        setup: whole(line.setup),
    })
}

/// The lines of resources.
pub fn uses(
    alloc: Global,
    instance: &Instance,
    lines: &[Usage],
) -> Result<Vec<DraftUse>, AllocError>
    requires there { All (λ line. (1 ≤ line.resource)
        × (line.resource ≤ resource_count instance.now)) lines.now }
    requires small { All (λ line. (line.unit ≤ MAX_AMOUNT) × (line.setup ≤ MAX_AMOUNT)) lines.now }
    ensures { IfOk result (λ list. map raw_use list.items
        ≡ map (use_written instance.now) lines.now) }
{
    let mut list = Vec::new(alloc);
    for line in lines {
        list.push(usage(alloc, instance, *line)?)?;
    }
    Ok(list)
}

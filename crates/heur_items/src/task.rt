// What an item has to make and may make, while the lots of all other items stay as they are.
ghost use Rattle.std.specs.Prelude.{◌≡◌, ◌≤◌};
ghost use Rattle.lot_sizing.specs.Problem.{item_count, resource_count};
ghost use Rattle.plan_rules.specs.Cells.{Fits};
ghost use Rattle.own_plan.specs.Made.{IsMade};

use heur_build::net_demands;
use lot_model::Instance;
use plan_rules::{Grid, Planned, time_used};
use std::alloc::{AllocError, Global};

/// What bounds the lots of an item, and what they cost. The lists have an entry for each period, after one that stands before
/// the first period.
#[derive(Drop)]
pub(crate) struct Task {
    /// How many periods there are.
    pub(crate) periods: u32,
    /// Whether what is needed may be met later.
    pub(crate) late: bool,
    /// Units that are needed up to each period.
    pub(crate) needed: Vec<u64>,
    /// Units that may have been made by then, as far as the lots of the components go; None where it has no components.
    pub(crate) allowed: Vec<Option<u64>>,
    /// The largest lot for which there is time; None where there is time for any.
    pub(crate) largest: Vec<Option<u64>>,
    /// What a setup costs, and a unit that is made.
    pub(crate) setup: Vec<i128>,
    pub(crate) unit: Vec<i128>,
    /// What a unit costs that is held from the first period to each one, less what its components would cost.
    pub(crate) held: Vec<i128>,
    /// What it costs to be a unit late from the first period to each one, with its components in stock.
    pub(crate) owed: Vec<i128>,
    /// What that comes to, added up over all units that are needed up to each period.
    pub(crate) held_sum: Vec<i128>,
    pub(crate) owed_sum: Vec<i128>,
}

/// The amount of a period, and 0 where there is none.
pub(crate) fn amount_at(list: &[u64], period: u32) -> u64 {
    match list.get(period as usize) {
        Some(amount) => *amount,
        None => 0,
    }
}

/// The bound of a period, if it has one, and 0 where there is no such period.
pub(crate) fn most_at(list: &[Option<u64>], period: u32) -> Option<u64> {
    match list.get(period as usize) {
        Some(most) => *most,
        None => Some(0),
    }
}

/// Whether an amount is within a bound, if there is one.
pub(crate) fn is_at_most(amount: u64, most: Option<u64>) -> bool {
    match most {
        Some(most) => amount <= most,
        None => true,
    }
}

// The lesser one of two bounds; the other one where one of them is none.
fn lesser(one: Option<u64>, other: Option<u64>) -> Option<u64> {
    match (one, other) {
        (Some(first), Some(second)) => Some(first.min(second)),
        (None, _) => other,
        _ => one,
    }
}

/// The cost of a period, and 0 where there is none.
pub(crate) fn cost_at(list: &[i128], period: u32) -> i128 {
    match list.get(period as usize) {
        Some(cost) => *cost,
        None => 0,
    }
}

// Units that are needed up to each period: by demand, by the lots of the items that this one goes into, and in the end.
fn needed_of(
    alloc: Global,
    instance: &Instance,
    planned: &Planned,
    item: u32,
) -> Result<Vec<u64>, AllocError>
    requires made { IsMade instance.now planned.now }
    requires low { 1 ≤ item }
    requires high { item ≤ item_count instance.now }
{
    let nets = net_demands(alloc, instance, item, &planned.plan.make)?;
    let mut total = 0u128;
    let mut list = vec![in alloc; 0u64; 1]?;
    for net in &nets {
        total = total.saturating_add(*net);
        list.push(u64::try_from(total).unwrap_or(u64::MAX))?;
    }
    Ok(list)
}

// The most that may have been made of an item by a period in which so much has been: what is left of its components may go
// into it. None where it has no components.
fn allowed_by(
    instance: &Instance,
    planned: &Planned,
    item: u32,
    period: u32,
    made: u64,
) -> Option<u64>
    requires made { IsMade instance.now planned.now }
    requires item_low { 1 ≤ item }
    requires item_high { item ≤ item_count instance.now }
    requires low { 1 ≤ period }
    requires high { period ≤ instance.now.periods }
{
    let mut most = None;
    for need in instance.needs(item) {
        let stock = planned.plan.stock.get(need.item, period);
        let more = stock.checked_div(need.quantity).unwrap_or(0);
        most = lesser(most, Some(made.saturating_add(more)));
    }
    most
}

// No period may have more made by then than a later one.
fn keep_least(list: &mut [Option<u64>]) {
    let many = list.len();
    let mut least = None;
    for back in 0..many {
        if let Some(most) = list.get_mut(many - 1 - back) {
            least = lesser(least, *most);
            *most = least;
        }
    }
}

// Units that may have been made by each period; None where it has no components.
fn allowed_of(
    alloc: Global,
    instance: &Instance,
    planned: &Planned,
    item: u32,
) -> Result<Vec<Option<u64>>, AllocError>
    requires made { IsMade instance.now planned.now }
    requires low { 1 ≤ item }
    requires high { item ≤ item_count instance.now }
{
    let mut made = 0u64;
    let mut list = vec![in alloc; Some(0u64); 1]?;
    for period in 1..instance.periods() + 1 {
        made = made.saturating_add(planned.plan.make.get(item, period));
        list.push(allowed_by(instance, planned, item, period, made))?;
    }
    keep_least(&mut list);
    Ok(list)
}

// The largest lot of an item for which a resource has the time that the others leave; None where it has the time for any.
fn largest_on(
    instance: &Instance,
    planned: &Planned,
    item: u32,
    resource: u32,
    period: u32,
) -> Option<u64>
    requires made { IsMade instance.now planned.now }
    requires item_low { 1 ≤ item }
    requires item_high { item ≤ item_count instance.now }
    requires resource_low { 1 ≤ resource }
    requires resource_high { resource ≤ resource_count instance.now }
    requires low { 1 ≤ period }
    requires high { period ≤ instance.now.periods }
{
    let unit = instance.unit_time(item, resource) as u128;
    let setup = instance.setup_time(item, resource) as u128;
    if unit == 0 && setup == 0 {
        return None;
    }
    let own = unit * planned.plan.make.get(item, period) as u128
        + setup * planned.plan.setup.get(item, period) as u128;
    let others = time_used(instance, &planned.plan, resource, period).saturating_sub(own);
    let room = (instance.capacity(resource, period) as u128).saturating_sub(others);
    if setup > room {
        return Some(0);
    }
    let units = (room - setup).checked_div(unit)?;
    u64::try_from(units).ok()
}

// The largest lot for which all resources have the time; None where they have the time for any.
fn largest_in(instance: &Instance, planned: &Planned, item: u32, period: u32) -> Option<u64>
    requires made { IsMade instance.now planned.now }
    requires item_low { 1 ≤ item }
    requires item_high { item ≤ item_count instance.now }
    requires low { 1 ≤ period }
    requires high { period ≤ instance.now.periods }
{
    let mut most = None;
    for resource in 1..instance.resources() + 1 {
        most = lesser(most, largest_on(instance, planned, item, resource, period));
    }
    most
}

// The largest lot of each period for which all resources have the time; None where they have the time for any.
fn largest_of(
    alloc: Global,
    instance: &Instance,
    planned: &Planned,
    item: u32,
) -> Result<Vec<Option<u64>>, AllocError>
    requires made { IsMade instance.now planned.now }
    requires low { 1 ≤ item }
    requires high { item ≤ item_count instance.now }
{
    let mut list = vec![in alloc; Some(0u64); 1]?;
    for period in 1..instance.periods() + 1 {
        list.push(largest_in(instance, planned, item, period))?;
    }
    Ok(list)
}

// What the components of a unit cost in stock.
fn components_hold(instance: &Instance, item: u32, period: u32) -> i128
    requires item_low { 1 ≤ item }
    requires item_high { item ≤ item_count instance.now }
    requires low { 1 ≤ period }
    requires high { period ≤ instance.now.periods }
{
    let mut price = 0i128;
    for need in instance.needs(item) {
        let one = i128::from(instance.hold_cost(need.item, period));
        price = price.saturating_add(one.saturating_mul(i128::from(need.quantity)));
    }
    price
}

// What a unit costs that is held up to each period.
fn held_of(alloc: Global, instance: &Instance, item: u32) -> Result<Vec<i128>, AllocError>
    requires low { 1 ≤ item }
    requires high { item ≤ item_count instance.now }
{
    let mut total = 0i128;
    let mut list = vec![in alloc; 0i128; 1]?;
    for period in 1..instance.periods() + 1 {
        list.push(total)?;
        let own = i128::from(instance.hold_cost(item, period));
        let below = components_hold(instance, item, period);
        total = total.saturating_add(own).saturating_sub(below);
    }
    Ok(list)
}

// What it costs to be a unit late up to each period.
fn owed_of(alloc: Global, instance: &Instance, item: u32) -> Result<Vec<i128>, AllocError>
    requires low { 1 ≤ item }
    requires high { item ≤ item_count instance.now }
{
    let mut total = 0i128;
    let mut list = vec![in alloc; 0i128; 1]?;
    for period in 1..instance.periods() + 1 {
        list.push(total)?;
        let own = i128::from(instance.backlog_cost(item, period).unwrap_or(0));
        let below = components_hold(instance, item, period);
        total = total.saturating_add(own).saturating_add(below);
    }
    Ok(list)
}

// What these prices come to, added up over all units that are needed.
fn summed(alloc: Global, prices: &[i128], needed: &[u64]) -> Result<Vec<i128>, AllocError> {
    let mut total = 0i128;
    let mut before = 0u64;
    let mut list = Vec::new(alloc);
    for (price, sum) in prices.iter().zip(needed) {
        let units = i128::from(sum.saturating_sub(before));
        total = total.saturating_add(units.saturating_mul(*price));
        before = *sum;
        list.push(total)?;
    }
    Ok(list)
}

// Costs by period, after one before the first period.
fn wide_list(alloc: Global, costs: &[u64]) -> Result<Vec<i128>, AllocError> {
    let mut list = vec![in alloc; 0i128; 1]?;
    for cost in costs {
        list.push(i128::from(*cost))?;
    }
    Ok(list)
}

// Whether what is needed of an item may be met late: demand may be, and no other item takes it.
fn may_wait(instance: &Instance, item: u32) -> bool
    requires low { 1 ≤ item }
    requires high { item ≤ item_count instance.now }
{
    for other in 1..instance.items() + 1 {
        if instance.per_unit(item, other) > 0 {
            return false;
        }
    }
    instance.has_backlog_cost(item)
}

impl Task {
    /// The task of an item, where the lots of the other ones are those of a plan.
    pub(crate) fn of(
        alloc: Global,
        instance: &Instance,
        planned: &Planned,
        item: u32,
    ) -> Result<Task, AllocError>
        requires made { IsMade instance.now planned.now }
        requires low { 1 ≤ item }
        requires high { item ≤ item_count instance.now }
    {
        let needed = needed_of(alloc, instance, planned, item)?;
        let held = held_of(alloc, instance, item)?;
        let owed = owed_of(alloc, instance, item)?;
        let held_sum = summed(alloc, &held, &needed)?;
        let owed_sum = summed(alloc, &owed, &needed)?;
        Ok(Task {
            periods: instance.periods(),
            late: may_wait(instance, item),
            needed,
            allowed: allowed_of(alloc, instance, planned, item)?,
            largest: largest_of(alloc, instance, planned, item)?,
            setup: wide_list(alloc, instance.setup_costs(item))?,
            unit: wide_list(alloc, instance.unit_costs(item))?,
            held,
            owed,
            held_sum,
            owed_sum,
        })
    }
}

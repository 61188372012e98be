// What must have arrived of an item by the end of each period if nothing is late, and so has been started before.
ghost use Rattle.std.specs.Prelude.{◌≡◌, ◌≤◌, IfOk};
ghost use Rattle.lot_sizing.specs.Sums.{sum_to};
ghost use Rattle.lot_sizing.specs.Problem.{demand, item_count};
ghost use Rattle.must_start.specs.MustStart.{must_arrive, taken_by_others};
ghost use Rattle.must_start.specs.Rows.{start_in};
ghost use Rattle.must_start.specs.Steps.{IsTable};
ghost use Rattle.late_starts.specs.OnTime.{arrival};
ghost use Rattle.late_starts.specs.Steps.{HasArrivals, IsRowOf, end_min_by};

use crate::OnTime;
use lot_model::{Instance, an_instance_breaks_no_rule};
use std::alloc::{AllocError, Global};

/// The period by whose end all lots of an item have arrived that are started by the end of this one, and the last
/// period where they arrive later.
pub fn arrival_period(instance: &Instance, item: u32, period: u32) -> u32
    requires low { 1 ≤ item }
    requires high { item ≤ item_count instance.now }
    requires some { 1 ≤ period }
    requires period { period ≤ instance.now.periods }
    ensures value { result ≡ arrival instance.now item period }
    ensures some { 1 ≤ result }
    ensures within { result ≤ instance.now.periods }
{
    an_instance_breaks_no_rule(instance);
    (period + instance.lead(item)).min(instance.periods())
}

// What other items take of an item by the end of a period.
fn taken_by_others(instance: &Instance, table: &OnTime, item: u32, period: u32) -> u64
    requires table { IsTable instance.now table.now }
    requires low { 1 ≤ item }
    requires high { item ≤ item_count instance.now }
    requires period { period ≤ instance.now.periods }
    ensures { result ≡ taken_by_others instance.now (start_in table.now) item period }
{
    let mut taken = 0;
    for other in 1..instance.items() + 1 {
        taken += instance.per_unit(item, other) * table.by_end(other, period);
    }
    taken
}

// The required end stock in the last period, and 0 before.
fn end_min_by(instance: &Instance, item: u32, period: u32) -> u64
    requires low { 1 ≤ item }
    requires high { item ≤ item_count instance.now }
    ensures { result ≡ end_min_by instance.now item period }
{
    if period == instance.periods() {
        instance.end_min(item)
    } else {
        0
    }
}

// What must have arrived of an item by the end of a period, where so much was asked for so far.
fn must_arrive(instance: &Instance, table: &OnTime, item: u32, period: u32, demanded: u64) -> u64
    requires table { IsTable instance.now table.now }
    requires low { 1 ≤ item }
    requires high { item ≤ item_count instance.now }
    requires period { period ≤ instance.now.periods }
    requires demanded { demanded ≡ sum_to period (demand instance.now item) }
    ensures { result ≡ must_arrive instance.now (start_in table.now) item period }
{
    an_instance_breaks_no_rule(instance);
    let end_min = end_min_by(instance, item, period);
    let taken = taken_by_others(instance, table, item, period);
    (demanded + end_min + taken).saturating_sub(instance.opening(item))
}

// What must have arrived of an item by the end of each period.
fn arrivals_of(
    alloc: Global,
    instance: &Instance,
    table: &OnTime,
    item: u32,
) -> Result<Vec<u64>, AllocError>
    requires table { IsTable instance.now table.now }
    requires low { 1 ≤ item }
    requires high { item ≤ item_count instance.now }
    ensures { IfOk result (λ list. HasArrivals instance.now (start_in table.now) item list.items) }
{
    let mut list = Vec::with_capacity(alloc, instance.periods() as usize)?;
    let mut demanded = 0;
    for period in 1..instance.periods() + 1 {
        demanded += instance.demand(item, period);
        list.push(must_arrive(instance, table, item, period, demanded))?;
    }
    Ok(list)
}

/// What is on time of an item by the end of each period, with 0 before the first, by what is of the items that it
/// goes into.
pub(crate) fn row_of(
    alloc: Global,
    instance: &Instance,
    table: &OnTime,
    item: u32,
) -> Result<Vec<u64>, AllocError>
    requires table { IsTable instance.now table.now }
    requires low { 1 ≤ item }
    requires high { item ≤ item_count instance.now }
    ensures { IfOk result (λ row. IsRowOf instance.now (start_in table.now) item row.items) }
{
    let arrivals = arrivals_of(alloc, instance, table, item)?;
    let mut row = Vec::with_capacity(alloc, instance.periods() as usize + 1)?;
    row.push(0)?;
    for period in 1..instance.periods() + 1 {
        let arrival = arrival_period(instance, item, period);
        row.push(arrivals[(arrival - 1) as usize])?;
    }
    Ok(row)
}

// What must have arrived of an item by the end of each period, and so must have been started before.
ghost use Rattle.std.specs.Prelude.{◌≡◌, ◌≤◌, ◌+◌, ◌==◌, if◌then◌else◌, min, IfOk};
ghost use Rattle.lot_sizing.specs.Sums.{sum_to};
ghost use Rattle.lot_sizing.specs.Problem.{demand, item_at, item_count};
ghost use Rattle.must_start.specs.MustStart.{may_be_late, must_arrive_in_time, taken_by_others};
ghost use Rattle.must_start.specs.Rows.{start_in};
ghost use Rattle.must_start.specs.Steps.{HasArrivals, IsRowOf, IsTable};

use crate::MustStart;
use lot_model::{Instance, an_instance_breaks_no_rule};
use std::alloc::{AllocError, Global};

// What other items take of an item by the end of a period.
fn taken_by_others(instance: &Instance, table: &MustStart, item: u32, period: u32) -> u64
    requires table { IsTable instance.now table.now }
    requires low { 1 ≤ item }
    requires high { item ≤ item_count instance.now }
    requires period { period ≤ instance.now.periods }
    ensures { result ≡ taken_by_others instance.now (start_in table.now) item period }
{
    let mut taken = 0;
    for other in 1..instance.items() + 1 {
        taken += instance.per_unit(item, other) * table.by_end(other, period);
    }
    taken
}

// Whether a backlog of an item may stand at the end of a period: it has a price for it, and the period isn't the last.
fn may_be_late(instance: &Instance, item: u32, period: u32) -> bool
    requires low { 1 ≤ item }
    requires high { item ≤ item_count instance.now }
    ensures { result ≡ may_be_late instance.now item period }
{
    period < instance.periods() && instance.has_backlog_cost(item)
}

// The required end stock in the last period, and 0 before.
fn end_min_by(instance: &Instance, item: u32, period: u32) -> u64
    requires low { 1 ≤ item }
    requires high { item ≤ item_count instance.now }
    ensures { result
        ≡ (if period == instance.now.periods then (item_at instance.now item).end_min else 0) }
{
    if period == instance.periods() {
        instance.end_min(item)
    } else {
        0
    }
}

// What must have arrived of an item by the end of a period, where so much was asked for so far; nothing where it
// may be late.
fn must_arrive_in_time(
    instance: &Instance,
    table: &MustStart,
    item: u32,
    period: u32,
    demanded: u64,
) -> u64
    requires table { IsTable instance.now table.now }
    requires low { 1 ≤ item }
    requires high { item ≤ item_count instance.now }
    requires period { period ≤ instance.now.periods }
    requires demanded { demanded ≡ sum_to period (demand instance.now item) }
    ensures { result ≡ must_arrive_in_time instance.now (start_in table.now) item period }
{
    an_instance_breaks_no_rule(instance);
    if may_be_late(instance, item, period) {
        return 0;
    }
    let end_min = end_min_by(instance, item, period);
    let taken = taken_by_others(instance, table, item, period);
    (demanded + end_min + taken).saturating_sub(instance.opening(item))
}

// The greatest quantity that must have arrived of an item by any period up to each one.
fn arrivals_of(
    alloc: Global,
    instance: &Instance,
    table: &MustStart,
    item: u32,
) -> Result<Vec<u64>, AllocError>
    requires table { IsTable instance.now table.now }
    requires low { 1 ≤ item }
    requires high { item ≤ item_count instance.now }
    ensures { IfOk result (λ list. HasArrivals instance.now (start_in table.now) item list.items) }
{
    let mut list = Vec::with_capacity(alloc, instance.periods() as usize + 1)?;
    let mut demanded = 0;
    let mut most = 0u64;
    list.push(most)?;
    for period in 1..instance.periods() + 1 {
        demanded += instance.demand(item, period);
        most = most.max(must_arrive_in_time(instance, table, item, period, demanded));
        list.push(most)?;
    }
    Ok(list)
}

// The period in which a lot arrives that is started in this one, and the last one where it arrives later.
fn arrival_period(instance: &Instance, item: u32, period: u32) -> u32
    requires low { 1 ≤ item }
    requires high { item ≤ item_count instance.now }
    requires period { period ≤ instance.now.periods }
    ensures { result ≡ min (period + (item_at instance.now item).lead) instance.now.periods }
{
    an_instance_breaks_no_rule(instance);
    (period + instance.lead(item)).min(instance.periods())
}

/// What must have been started of an item by the end of each period, with 0 before the first, by what must have
/// been of the items that it goes into.
pub fn row_of(
    alloc: Global,
    instance: &Instance,
    table: &MustStart,
    item: u32,
) -> Result<Vec<u64>, AllocError>
    requires table { IsTable instance.now table.now }
    requires low { 1 ≤ item }
    requires high { item ≤ item_count instance.now }
    ensures { IfOk result (λ row. IsRowOf instance.now (start_in table.now) item row.items) }
{
    let arrivals = arrivals_of(alloc, instance, table, item)?;
    let mut row = Vec::with_capacity(alloc, instance.periods() as usize + 1)?;
    row.push(0)?;
    for period in 1..instance.periods() + 1 {
        let arrival = arrival_period(instance, item, period) as usize;
        row.push(arrivals[arrival])?;
    }
    Ok(row)
}

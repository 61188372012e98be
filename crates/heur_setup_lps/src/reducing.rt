// Rows of the linear model with the values of given setups put in.
ghost use Rattle.std.specs.Prelude.{◌≤◌};
ghost use Rattle.lot_sizing.specs.Problem.{item_count, resource_count};

use crate::columns::{Role, read, role_of};
use lin_rows::{Row, RowName};
use lot_model::Instance;
use plan_rules::Grid;
use std::alloc::{AllocError, Global};
use tableau::{LpRow, LpTerm};

/// A row of the model with its name.
#[derive(Debug, Drop)]
pub(crate) struct NamedRow {
    pub(crate) name: RowName,
    pub(crate) row: Row,
}

// The largest lot for which a resource has the time; None where a unit takes none of it.
fn largest_on(instance: &Instance, item: u32, resource: u32, period: u32) -> Option<u64>
    requires item_low { 1 ≤ item }
    requires item_high { item ≤ item_count instance.now }
    requires resource_low { 1 ≤ resource }
    requires resource_high { resource ≤ resource_count instance.now }
    requires low { 1 ≤ period }
    requires high { period ≤ instance.now.periods }
{
    let capacity = instance.capacity(resource, period);
    let room = capacity.saturating_sub(instance.setup_time(item, resource));
    room.checked_div(instance.unit_time(item, resource))
}

// The largest lot for which all resources have the time; None where a unit takes none of any.
fn largest_lot(instance: &Instance, item: u32, period: u32) -> Option<u64>
    requires item_low { 1 ≤ item }
    requires item_high { item ≤ item_count instance.now }
    requires low { 1 ≤ period }
    requires high { period ≤ instance.now.periods }
{
    let mut most: Option<u64> = None;
    for resource in 1..instance.resources() + 1 {
        if let Some(units) = largest_on(instance, item, resource, period) {
            most = Some(most.unwrap_or(units).min(units));
        }
    }
    most
}

// The largest useful coefficient of a row, if it has one (coefficient tightening): a link takes a setup no more often than the
// largest lot for which there is time.
fn most_of(instance: &Instance, name: RowName) -> Option<i128> {
    match name {
        RowName::Link(item, period) => {
            if item == 0 || item > instance.items() {
                return None;
            }
            if period == 0 || period > instance.periods() {
                return None;
            }
            let largest = largest_lot(instance, item, period)?;
            Some(i128::from(largest))
        }
        _ => None,
    }
}

// A coefficient, but no larger than a bound.
fn bounded(times: i128, most: Option<i128>) -> i128 {
    match most {
        Some(most) => times.min(most),
        None => times,
    }
}

// Whether an item has a largest lot that binds: plans make more of it in all.
fn is_bounded(instance: &Instance, item: u32) -> bool
    requires low { 1 ≤ item }
    requires high { item ≤ item_count instance.now }
{
    match instance.max_lot(item) {
        Some(most) => most < instance.largest_total(item),
        None => false,
    }
}

// Whether a row says nothing that the others don't: the link of a setup that is made, where no bound on lots binds.
fn is_left_out(instance: &Instance, low: &Grid, name: RowName) -> bool {
    match name {
        RowName::Link(item, period) => {
            item >= 1
                && item <= instance.items()
                && !is_bounded(instance, item)
                && read(low, item, period) == 1
        }
        _ => false,
    }
}

// A row with the values put in.
fn reduced(
    alloc: Global,
    instance: &Instance,
    roles: &[Role],
    named: &NamedRow,
) -> Result<LpRow, AllocError> {
    let most = most_of(instance, named.name);
    let mut terms = Vec::new(alloc);
    let mut right = named.row.right();
    for term in named.row.terms() {
        match role_of(instance, roles, term.column) {
            Role::Column(column) => terms.push(LpTerm {
                column,
                times: bounded(term.times, most),
            })?,
            Role::Value(value) => right = right.saturating_sub(term.times.saturating_mul(value)),
        }
    }
    Ok(LpRow { terms, right })
}

// The row with all signs changed.
fn turned(alloc: Global, row: &LpRow) -> Result<LpRow, AllocError> {
    let mut terms = Vec::new(alloc);
    for term in &row.terms {
        terms.push(LpTerm {
            column: term.column,
            times: 0i128.saturating_sub(term.times),
        })?;
    }
    Ok(LpRow {
        terms,
        right: 0i128.saturating_sub(row.right),
    })
}

// Whether a row is met by all numbers of at least 0.
fn is_void(row: &LpRow) -> bool {
    row.right <= 0 && row.terms.iter().all(|term| term.times >= 0)
}

// Puts a row after others, if it isn't void.
fn put(row: LpRow, rows: &mut Vec<LpRow>) -> Result<(), AllocError> {
    if !is_void(&row) {
        rows.push(row)?;
    }
    Ok(())
}

/// Puts a row of the model after others, with the values of given setups put in: an equal one twice, the second time with all
/// signs changed, and none that says nothing.
pub(crate) fn put_reduced(
    alloc: Global,
    instance: &Instance,
    low: &Grid,
    roles: &[Role],
    named: &NamedRow,
    rows: &mut Vec<LpRow>,
) -> Result<(), AllocError> {
    if is_left_out(instance, low, named.name) {
        return Ok(());
    }
    let row = reduced(alloc, instance, roles, named)?;
    if named.row.is_equal() {
        let opposite = turned(alloc, &row)?;
        put(row, rows)?;
        put(opposite, rows)
    } else {
        put(row, rows)
    }
}

// Columns by their numbers, and what they cost.
ghost use Rattle.std.specs.Prelude.{◌≡◌, ◌≤◌, ◌<◌, ◌-◌, ◌+◌, ◌*◌, ◌↔◌, IfSome, IsNone, IsTrue, SomeIff};
ghost use Rattle.lot_sizing.specs.Sums.{sum_to};
ghost use Rattle.lot_sizing.specs.Problem.{item_count};
ghost use Rattle.lot_sizing.specs.declared.limits.TheConstants.{MAX_AMOUNT, MAX_ITEMS, MAX_PERIODS};
ghost use Rattle.lot_model.specs.Views.{IsInstance};
ghost use Rattle.lin_rows.specs.Columns.{IsCell, IsColumn, IsColumnAt, NumbersRise, cell_count, cell_number, column_cost, column_count, number_of, owes, owing_count};

use crate::Column;
use lot_model::Instance;

// 1 where an item has a backlog cost, and 0 otherwise.
pub(crate) fn owes(instance: &Instance, item: u32) -> u32
    requires low { 1 ≤ item }
    requires high { item ≤ item_count instance.now }
    ensures value { result ≡ owes instance.now item }
    ensures small { result ≤ 1 }
{
    if instance.has_backlog_cost(item) {
        1
    } else {
        0
    }
}

// How many of the first items have a backlog cost.
fn owing_items(instance: &Instance, count: u32) -> u32
    requires high { count ≤ item_count instance.now }
    requires few { count ≤ MAX_ITEMS }
    ensures value { result ≡ sum_to count (owes instance.now) }
    ensures small { result ≤ count }
{
    let mut sum = 0u32;
    for item in 1..count + 1 {
        sum += owes(instance, item);
    }
    sum
}

/// The number of columns. It takes no memory.
pub fn column_count(instance: &Instance) -> u32
    ensures { result ≡ column_count instance.now }
{
    let items = instance.items();
    let periods = instance.periods();
    3 * (items * periods) + owing_items(instance, items) * (periods - 1)
}

/// Whether the model has an item and a period, both counted from 1. It takes no memory.
pub fn is_cell(instance: &Instance, item: u32, period: u32) -> bool
    ensures cell { IsTrue result ↔ IsCell instance.now item period }
{
    item >= 1 && item <= instance.items() && period >= 1 && period <= instance.periods()
}

// Whether the model has a column.
fn is_column(instance: &Instance, column: Column) -> bool
    ensures value { IsTrue result ↔ IsColumn instance.now column }
    ensures instance { IsInstance instance.now }
{
    let periods = instance.periods();
    match column {
        Column::X { item, period } | Column::Y { item, period } | Column::S { item, period } => {
            is_cell(instance, item, period)
        }
        Column::R { item, period } => {
            is_cell(instance, item, period) && period < periods && instance.has_backlog_cost(item)
        }
    }
}

// The number of an item and period, by item and then by period.
fn cell_number(instance: &Instance, item: u32, period: u32) -> u32
    requires cell { IsCell instance.now item period }
    ensures value { result ≡ cell_number instance.now item period }
    ensures small { result ≤ MAX_ITEMS * MAX_PERIODS }
{
    (item - 1) * instance.periods() + period
}

// The number of a column that the model has.
fn number_of(instance: &Instance, column: Column) -> u32
    requires column { IsColumn instance.now column }
    ensures { result ≡ number_of instance.now column }
{
    let periods = instance.periods();
    let cells = instance.items() * periods;
    match column {
        Column::X { item, period } => cell_number(instance, item, period),
        Column::Y { item, period } => cells + cell_number(instance, item, period),
        Column::S { item, period } => 2 * cells + cell_number(instance, item, period),
        Column::R { item, period } => {
            3 * cells + owing_items(instance, item - 1) * (periods - 1) + period
        }
    }
}

/// The number of a column, counted from 1 in the order of columns. None exactly where the model has no such
/// column. It takes no memory.
pub fn column_number(instance: &Instance, column: Column) -> Option<u32>
    ensures value { SomeIff result (IsColumn instance.now column) (number_of instance.now column) }
    ensures among { IfSome result (λ number. (1 ≤ number) × (number ≤ column_count instance.now)) }
    ensures rising { NumbersRise instance.now column }
{
    if is_column(instance, column) {
        Some(number_of(instance, column))
    } else {
        None
    }
}

// The item and the period of a cell, of which so many come before it.
fn cell_at(instance: &Instance, place: u32) -> (u32, u32)
    requires { place < cell_count instance.now }
    ensures cell { IsCell instance.now result.0 result.1 }
    ensures number { cell_number instance.now result.0 result.1 ≡ place + 1 }
{
    let periods = instance.periods();
    (place / periods + 1, place % periods + 1)
}

// The column of units, of a setup or of a stock, of which so many come before it.
fn free_at(instance: &Instance, place: u32) -> Column
    requires { place < 3 * cell_count instance.now }
    ensures { IsColumnAt instance.now (place + 1) result }
{
    let cells = instance.items() * instance.periods();
    if place < cells {
        let (item, period) = cell_at(instance, place);
        Column::X { item, period }
    } else if place < 2 * cells {
        let (item, period) = cell_at(instance, place - cells);
        Column::Y { item, period }
    } else {
        let (item, period) = cell_at(instance, place - 2 * cells);
        Column::S { item, period }
    }
}

// The backlog of which so many are columns that come before it.
fn owing_at(instance: &Instance, place: u32) -> Option<Column>
    ensures column { IfSome result (IsColumnAt instance.now
        (3 * cell_count instance.now + (place + 1))) }
    ensures none { IsNone result → owing_count instance.now (item_count instance.now) ≤ place }
{
    let each = instance.periods() - 1;
    let mut left = place;
    for item in 1..instance.items() + 1 {
        let columns = owes(instance, item) * each;
        if left < columns {
            return Some(Column::R {
                item,
                period: left + 1,
            });
        }
        left -= columns;
    }
    None
}

/// The column of a number, as `column_number` counts them. None exactly where the model has fewer columns, or
/// the number is 0. It takes no memory, and time in the number of items.
pub fn column_at(instance: &Instance, number: u32) -> Option<Column>
    ensures column { IfSome result (IsColumnAt instance.now number) }
    ensures none { IsNone result → (1 ≤ number) × (number ≤ column_count instance.now) → ⊥ }
{
    if number == 0 {
        return None;
    }
    let place = number - 1;
    let free = 3 * (instance.items() * instance.periods());
    if place < free {
        Some(free_at(instance, place))
    } else {
        owing_at(instance, place - free)
    }
}

/// What one of a column costs: a unit made, a setup, a unit in stock or owed at the end of the period. It takes
/// no memory.
pub fn column_cost(instance: &Instance, column: Column) -> u64
    requires { IsColumn instance.now column }
    ensures value { result ≡ column_cost instance.now column }
    ensures small { result ≤ MAX_AMOUNT }
{
    match column {
        Column::X { item, period } => instance.unit_cost(item, period),
        Column::Y { item, period } => instance.setup_cost(item, period),
        Column::S { item, period } => instance.hold_cost(item, period),
        Column::R { item, period } => instance.backlog_cost(item, period).unwrap_or(0),
    }
}

// What the columns of the linear model are in a program where some setups are given.
use lin_rows::{Column, column_number};
use lot_model::Instance;
use plan_rules::Grid;
use std::alloc::{AllocError, Global};

/// What a column of the model is in a program.
#[derive(Clone, Copy, Debug)]
pub(crate) enum Role {
    /// The column of this number.
    Column(u32),
    /// This value.
    Value(i128),
}

/// The roles of the model's columns by their numbers, and what the program's columns cost.
#[derive(Debug, Drop)]
pub(crate) struct Columns {
    pub(crate) roles: Vec<Role>,
    pub(crate) costs: Vec<u64>,
}

/// The number of an item and a period, and 0 where the grid doesn't have them.
pub(crate) fn read(grid: &Grid, item: u32, period: u32) -> u64 {
    if item == 0 || item > grid.items() || period == 0 || period > grid.periods() {
        return 0;
    }
    grid.get(item, period)
}

// The value that a column has by given setups. Nothing is made without a setup.
fn value_of(low: &Grid, high: &Grid, column: Column) -> Option<u64> {
    match column {
        Column::X { item, period } => {
            if read(high, item, period) == 0 {
                Some(0)
            } else {
                None
            }
        }
        Column::Y { item, period } => {
            let least = read(low, item, period);
            if least == read(high, item, period) {
                Some(least)
            } else {
                None
            }
        }
        Column::S { .. } | Column::R { .. } => None,
    }
}

// Puts a column of the model after others.
fn put_column(
    low: &Grid,
    high: &Grid,
    column: Column,
    cost: u64,
    columns: &mut Columns,
) -> Result<(), AllocError> {
    let role = match value_of(low, high, column) {
        Some(value) => Role::Value(i128::from(value)),
        None => {
            columns.costs.push(cost)?;
            Role::Column(u32::try_from(columns.costs.len()).unwrap_or(0))
        }
    };
    columns.roles.push(role)?;
    Ok(())
}

/// The roles of all columns, where setups are given by their least and their greatest numbers.
pub(crate) fn columns_of(
    alloc: Global,
    low: &Grid,
    high: &Grid,
    all: &[Column],
    costs: &[u64],
) -> Result<Columns, AllocError> {
    let mut columns = Columns {
        roles: Vec::new(alloc),
        costs: Vec::new(alloc),
    };
    for (column, cost) in all.iter().zip(costs) {
        put_column(low, high, *column, *cost, &mut columns)?;
    }
    Ok(columns)
}

/// The role of a column.
pub(crate) fn role_of(instance: &Instance, roles: &[Role], column: Column) -> Role {
    match column_number(instance, column) {
        Some(number) => match roles.get((number as usize).wrapping_sub(1)) {
            Some(role) => *role,
            None => Role::Value(0),
        },
        None => Role::Value(0),
    }
}

//! The linear model of an instance: its columns, its rows, and sums of rows.
//!
//! Family: rows. It stands on `algebra`, `rational`, `frac128`, `lot_sizing` and `lot_model`; cuts,
//! `certificate`, its checker and the search stand on it.
//!
//! A `Column` is what a plan has of an item in a period: units made (`X`), a setup (`Y`), the stock at
//! the end of the period (`S`) and the backlog there (`R`). A `Row` says that a sum of multiples of
//! columns is at least its right side, or equal to it. `base_row` gives the rows that the rules of plans
//! make, by their names; each holds at every feasible plan. `Sums` adds multiples of rows, column by
//! column, as a proof by multipliers needs it; `Total` does so for one sum. What such sums prove is said by the
//! laws `sums_hold`, `sums_bound` and `sums_refute`, and `plans_cost` ties the columns' costs to a plan's cost.
//! That the rules' rows hold at every feasible plan of a problem, without an instance, is `base_rows_hold`.
//!
//! `Bound` is what a side of a branch says of a column, with its row. `Point` has a fraction for each column: a
//! solution of the relaxation, read by columns.
//!
//! `Prices` and `Potentials` are the lists that cuts of an item are made of, and `CutFault` says why there
//! is no cut.
//!
//! Contracts see a row as a `LinRow` and say whether it holds at a `LinPoint`: numerators of the columns
//! over one denominator of at least 1. A plan is such a point.
#![tactic(auto)]

mod adding;
mod base;
mod bound;
mod column;
mod fault;
mod laws;
mod numbers;
mod point;
mod prices;
mod row;
mod row_terms;
mod sums;
mod total;

pub use base::{RowName, base_row, has_row};
pub use bound::Bound;
pub use column::Column;
pub use fault::{CutFault, RowFault};
pub use laws::{
    base_columns_exist, base_rows_hold, plans_cost, sums_bound, sums_hold, sums_refute,
};
pub use numbers::{column_at, column_cost, column_count, column_number, is_cell};
pub use point::Point;
pub use prices::{Potentials, Prices};
pub use row::{Row, Term};
pub use sums::{SumFault, Sums};
pub use total::Total;

// Points whose values are fractions.
ghost use Rattle.std.specs.Prelude.{◌≡◌, ◌≤◌, ◌<◌, ◌-◌, ◌+◌, ◌*◌, ℕ, IsTrue, length, pos, slice_index_or};
ghost use Rattle.rational.specs.Rational.{whole};
ghost use Rattle.lot_sizing.specs.Sums.{sum_to};
ghost use Rattle.lot_sizing.specs.Problem.{item_count};
ghost use Rattle.lot_sizing.specs.declared.limits.TheConstants.{MAX_ITEMS, MAX_PERIODS};
ghost use Rattle.lin_rows.specs.Columns.{column_count, owes};
ghost use Rattle.lin_rows.specs.Points.{IsPointOf, has_column, number_in, owing_to, read_at};

use crate::Column;
use crate::numbers::owes;
use crate::sums::has_column_for;
use frac128::Frac;
use lot_model::Instance;
use lot_sizing::limits::MAX_ITEMS;
use std::marker::Model;

// An entry for each number of first items, from none of them on.
const COUNTS: usize = MAX_ITEMS as usize + 1;

/// A value of each column of an instance: a solution of its relaxation. It is read in constant time.
#[derive(Debug, Drop)]
pub struct Point {
    items: u32,
    periods: u32,
    // How many of the first items have a backlog cost.
    owing: [u32; COUNTS],
    // By the numbers of the columns.
    values: Vec<Frac>,
}

impl Model for Point {
    ghost use Rattle.lin_rows.specs.Points.{ArePlaces, Pointed, pointed_in};

    ghost Value = { Pointed };

    ghost view = { pointed_in };

    ghost invariant = { ArePlaces };
}

// How many of the first items have a backlog cost, for each number of them.
fn owing_counts(instance: &Instance) -> [u32; COUNTS]
    ensures counts { (n : ℕ) → n ≤ item_count instance.now
        → slice_index_or result n 0 ≡ sum_to n (owes instance.now) }
    ensures small { (n : ℕ) → slice_index_or result n 0 ≤ MAX_ITEMS }
{
    let mut counts = [0u32; COUNTS];
    for item in 1..instance.items() + 1 {
        counts[item as usize] = counts[item as usize - 1] + owes(instance, item);
    }
    counts
}

impl Point {
    /// The point with these values, one for each column by its number as `column_number` counts them. It takes
    /// no memory.
    pub fn new(instance: &Instance, values: Vec<Frac>) -> Point
        requires { length values.items ≡ column_count instance.now }
        ensures point { IsPointOf instance.now values.items result }
        ensures values { result.values ≡ values.items }
    {
        let (items, periods) = (instance.items(), instance.periods());
        Point {
            items,
            periods,
            owing: owing_counts(instance),
            values,
        }
    }

    // How many of the first items have a backlog cost.
    fn owing_to(&self, count: u32) -> u32
        requires { count ≤ self.now.items }
        ensures value { result ≡ owing_to self.now count }
        ensures small { result ≤ MAX_ITEMS }
    {
        self.owing[count as usize]
    }

    // Whether there is such a column.
    fn has_column(&self, column: Column) -> bool
        ensures value { result ≡ has_column self.now column }
        ensures small { self.now.items ≤ MAX_ITEMS }
    {
        if !has_column_for(self.items, self.periods, column) {
            return false;
        }
        match column {
            Column::X { .. } | Column::Y { .. } | Column::S { .. } => true,
            Column::R { item, period } => {
                period < self.periods && self.owing_to(item - 1) < self.owing_to(item)
            }
        }
    }

    // The number of an item and period, by item and then by period.
    fn cell_number(&self, item: u32, period: u32) -> u32
        requires low { 1 ≤ item }
        requires high { item ≤ self.now.items }
        requires period { period ≤ self.now.periods }
        ensures value { result ≡ (item - 1) * self.now.periods + period }
        ensures small { result ≤ MAX_ITEMS * MAX_PERIODS }
    {
        (item - 1) * self.periods + period
    }

    // The number of a column, counted from 1.
    fn number(&self, column: Column) -> u32
        requires column { IsTrue (has_column self.now column) }
        ensures value { result ≡ number_in self.now column }
        ensures some { 1 ≤ result }
    {
        let cells = self.items * self.periods;
        match column {
            Column::X { item, period } => self.cell_number(item, period),
            Column::Y { item, period } => cells + self.cell_number(item, period),
            Column::S { item, period } => 2 * cells + self.cell_number(item, period),
            Column::R { item, period } => {
                3 * cells + self.owing_to(item - 1) * (self.periods - 1) + period
            }
        }
    }

    /// The value of a column, and 0 of one that the instance doesn't have. It takes constant time and no memory.
    pub fn value(&self, column: Column) -> Frac
        ensures { result ≡ read_at self.now column }
    {
        if !self.has_column(column) {
            return Frac::from(0i64);
        }
        match self.values.get((self.number(column) - 1) as usize) {
            Some(value) => *value,
            None => Frac::from(0i64),
        }
    }

    /// The values by the columns' numbers.
    pub fn values(&self) -> &[Frac]
        ensures { result.now ≡ self.now.values }
    {
        &self.values
    }
    /// The values by the columns' numbers, as they were given. It takes no memory.
    pub fn into_values(self) -> Vec<Frac>
        ensures { result.items ≡ self.values }
    {
        self.values
    }
}

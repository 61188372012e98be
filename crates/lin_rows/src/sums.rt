// Sums of rows, column by column.
ghost use Rattle.std.specs.Prelude.{◌≡◌, ◌≤◌, ◌<◌, ◌^◌, ◌↔◌, ◌*ℤ◌, IfOk, IsTrue, Ok, Err};
ghost use Rattle.lot_sizing.specs.Problem.{item_count};
ghost use Rattle.lin_rows.specs.Columns.{IsColumn};
ghost use Rattle.lin_rows.specs.Rows.{AreTerms};
ghost use Rattle.std.specs.Prelude.{◌-◌, ◌+◌, ◌*◌};
ghost use Rattle.lin_rows.specs.Sums.{AddsRow, AddsTerm, AreWithin, FitsAdded, HasRoomFor, IsTotal, IsColumnWithin, PassesWith, SameShape, cell_of, has_column_for, item_of, kind_of, no_total, period_of, total_of, with_more};
ghost use Rattle.lin_rows.specs.declared.column.Column.{Column};
ghost use Rattle.lin_rows.specs.declared.sums.SumFault.TheVariants.{Passed128};

use crate::{Column, Row, Term, Total, adding};
use lot_model::Instance;
use std::alloc::{AllocError, Global};
use std::marker::Model;
use thiserror::Error;

/// Why a row was not added: the absolute values that are added up of a column, or of the right sides,
/// would reach 2^127.
#[derive(Clone, Copy, Debug, PartialEq, Eq, Error)]
pub enum SumFault {
    /// An amount would reach 2^127.
    #[error("the numbers reach 2^127")]
    Passed128,
}

/// Sums of multiples of rows: of each column and of the right sides.
#[derive(Debug, Drop)]
pub struct Sums {
    items: u32,
    periods: u32,
    cells: Vec<Total>,
    right: Total,
}

impl Model for Sums {
    ghost use Rattle.lin_rows.specs.Sums.{AreSums, Summed, sums_in};

    ghost Value = { Summed };

    ghost view = { sums_in };

    ghost invariant = { AreSums };
}

// The place of a column's kind.
fn kind(column: Column) -> usize
    ensures value { result ≡ kind_of column }
    ensures small { result ≤ 3 }
{
    match column {
        Column::X { .. } => 0,
        Column::Y { .. } => 1,
        Column::S { .. } => 2,
        Column::R { .. } => 3,
    }
}

// The item of a column.
fn item(column: Column) -> u32
    ensures { result ≡ item_of column }
{
    match column {
        Column::X { item, .. }
        | Column::Y { item, .. }
        | Column::S { item, .. }
        | Column::R { item, .. } => item,
    }
}

// The period of a column.
fn period(column: Column) -> u32
    ensures { result ≡ period_of column }
{
    match column {
        Column::X { period, .. }
        | Column::Y { period, .. }
        | Column::S { period, .. }
        | Column::R { period, .. } => period,
    }
}

// Whether a column is one of so many items and periods.
pub(crate) fn has_column_for(items: u32, periods: u32, column: Column) -> bool
    ensures { result ≡ has_column_for items periods column }
{
    let (item, period) = (item(column), period(column));
    item >= 1 && item <= items && (period >= 1 && period <= periods)
}

impl Sums {
    /// Sums of nothing, for an instance's columns. The error is that memory ran out.
    pub fn new(alloc: Global, instance: &Instance) -> Result<Sums, AllocError>
        ensures items { IfOk result (λ sums. sums.items ≡ item_count instance.now) }
        ensures periods { IfOk result (λ sums. sums.periods ≡ instance.now.periods) }
        ensures columns { IfOk result (λ sums. (c : Column) → total_of sums c ≡ no_total) }
        ensures right { IfOk result (λ sums. sums.right ≡ no_total) }
    {
        let items = instance.items();
        let periods = instance.periods();
        let mut cells = Vec::new(alloc);
        cells.resize(4 * items as usize * periods as usize, Total::none())?;
        Ok(Sums {
            items,
            periods,
            cells,
            right: Total::none(),
        })
    }

    /// Makes all sums 0 again, as they are at first. It takes no memory, and time in the number of columns.
    pub fn clear(&mut self)
        ensures shape { SameShape self.old self.new }
        ensures columns { (c : Column) → total_of self.new c ≡ no_total }
        ensures right { self.new.right ≡ no_total }
    {
        self.cells.fill(Total::none());
        self.right = Total::none();
    }

    // Where the total of a column stands.
    fn cell(&self, column: Column) -> usize
        requires within { IsColumnWithin self.now.items self.now.periods column }
        ensures value { result ≡ cell_of self.now.items self.now.periods column }
    {
        let row = kind(column) * self.items as usize + (item(column) - 1) as usize;
        row * self.periods as usize + (period(column) - 1) as usize
    }

    // What has been added up of a column.
    fn total(&self, column: Column) -> Total
        ensures value { result ≡ total_of self.now column }
        ensures total { IsTotal result }
    {
        if has_column_for(self.items, self.periods, column) {
            self.cells[self.cell(column)]
        } else {
            Total::none()
        }
    }

    // Whether a column is one of those of the sums.
    pub(crate) fn has_column(&self, column: Column) -> bool
        ensures { IsTrue result ↔ IsColumnWithin self.now.items self.now.periods column }
    {
        has_column_for(self.items, self.periods, column)
    }

    /// Whether all columns of a row are those of the sums, as `add_times` asks. It takes no memory.
    pub fn has_columns(&self, row: &Row) -> bool
        ensures { IsTrue result ↔ AreWithin self.now row.now.terms }
    {
        adding::has_columns(self, row.terms())
    }

    // Whether a multiple of a term can be added.
    pub(crate) fn has_room_for_term(&self, term: Term, times: i128) -> bool
        ensures { IsTrue result ↔ FitsAdded (total_of self.now term.column) (times *ℤ term.times) }
    {
        self.total(term.column).fits_added(times, term.times)
    }

    // Whether a multiple of a right side can be added.
    pub(crate) fn has_room_for_right(&self, right: i128, times: i128) -> bool
        ensures value { IsTrue result ↔ FitsAdded self.now.right (times *ℤ right) }
        ensures small { (c : Column) → (total_of self.now c).amount < 2 ^ 127 }
    {
        self.right.fits_added(times, right)
    }

    // Adds a multiple of a term.
    pub(crate) fn add_term(&mut self, term: Term, times: i128)
        requires within { IsColumnWithin self.old.items self.old.periods term.column }
        requires room { FitsAdded (total_of self.old term.column) (times *ℤ term.times) }
        ensures adds { AddsTerm self.old self.new term times }
        ensures shape { SameShape self.old self.new }
        ensures right { self.new.right ≡ self.old.right }
    {
        let place = self.cell(term.column);
        let more = self.total(term.column).with_more(times, term.times);
        self.cells[place] = more;
    }

    // Adds a multiple of a right side.
    pub(crate) fn add_right(&mut self, right: i128, times: i128)
        requires room { FitsAdded self.old.right (times *ℤ right) }
        ensures right { self.new.right ≡ with_more self.old.right (times *ℤ right) }
        ensures shape { SameShape self.old self.new }
        ensures columns { (c : Column) → total_of self.new c ≡ total_of self.old c }
    {
        self.right = self.right.with_more(times, right);
    }

    /// Adds a multiple of a row, whose columns are those of the sums. `Passed128` comes exactly where the
    /// absolute values of all that was ever added to one column, or to the right side, this multiple with
    /// them, reach 2^127; the sums are then as they were. It takes no memory, and time in the length of
    /// the row.
    pub fn add_times(&mut self, row: &Row, times: i128) -> Result<(), SumFault>
        requires within { AreWithin self.old row.now.terms }
        ensures added { IfOk result (λ _. AddsRow self.old self.new row.now times) }
        ensures room { IfOk result (λ _. HasRoomFor self.old row.now times) }
        ensures passed { result ≡ Err Passed128 → PassesWith self.old row.now times }
        ensures kept { result ≡ Err Passed128 → self.new ≡ self.old }
    {
        adding::add_times(self, row, times)
    }

    /// The sum of a column; 0 for one whose item or period the model hasn't. A backlog that is no column of the model has
    /// what rows added of it, so 0 where no row has it.
    pub fn column(&self, column: Column) -> i128
        ensures { result ≡ (total_of self.now column).sum }
    {
        self.total(column).sum
    }

    /// The sum of the right sides.
    pub fn right(&self) -> i128
        ensures { result ≡ self.now.right.sum }
    {
        self.right.sum
    }
}

// Linear programs.
ghost use Rattle.std.specs.Prelude.{◌≡◌, ◌≤◌, ◌+◌, ◌*◌, ◌↔◌, IsTrue, OnErr, OnOk, map};
ghost use Rattle.tableau.specs.Program.{AreRows, IsProgram, IsRow, column_count, row_count, with_row};
ghost use Rattle.tableau.specs.Held.{inequality_of};
ghost use Rattle.tableau.specs.declared.limits.TheConstants.{MAX_PROGRAM_SIZE};

use crate::limits::MAX_PROGRAM_SIZE;
use std::alloc::AllocError;
use std::marker::Model;

/// A multiple of a column. Columns are counted from 1.
#[derive(Clone, Copy, Debug, PartialEq, Eq)]
pub struct LpTerm {
    /// The column.
    pub column: u32,
    /// How many times it is taken.
    pub times: i128,
}

/// A row: the sum of the terms is at least the right side. It holds an `Inequality`, as contracts see it.
#[derive(Debug, Drop)]
pub struct LpRow {
    /// The terms, whose columns rise.
    pub terms: Vec<LpTerm>,
    /// The right side.
    pub right: i128,
}

/// A linear program: to find numbers of at least 0 for the columns that meet each row and cost least. Contracts see it as a
/// `Program`.
#[derive(Debug, Drop)]
pub struct Lp {
    pub(crate) costs: Vec<u64>,
    pub(crate) rows: Vec<LpRow>,
}

// Whether the columns of a row rise and are among the first so many, and its numbers are small.
fn is_row(last: usize, row: &LpRow) -> bool
    ensures { IsTrue result ↔ IsRow last (inequality_of row.now) }
{
    if row.right == i128::MIN {
        return false;
    }
    let mut from = 0u32;
    for term in &row.terms {
        if term.column <= from || term.column as usize > last || term.times == i128::MIN {
            return false;
        }
        from = term.column;
    }
    true
}

// Whether each row is one over the first so many columns.
fn are_rows(last: usize, rows: &[LpRow]) -> bool
    ensures { IsTrue result ↔ AreRows last (map inequality_of rows.now) }
{
    for row in rows {
        if !is_row(last, row) {
            return false;
        }
    }
    true
}

/// Whether costs and rows meet the conditions of `Lp::new`. It takes no memory, and time in the number of terms.
pub fn is_program(costs: &[u64], rows: &[LpRow]) -> bool
    ensures { IsTrue result ↔ IsProgram
        (record { costs = costs.now; rows = map inequality_of rows.now }) }
{
    costs.len() + rows.len() <= MAX_PROGRAM_SIZE as usize && are_rows(costs.len(), rows)
}

impl Model for Lp {
    ghost use Rattle.tableau.specs.Program.{IsProgram, Program};
    ghost use Rattle.tableau.specs.Held.{IsLpInside, program_in};

    ghost Value = { Program };

    ghost view = { program_in };

    ghost invariant = { IsLpInside };
}

impl Lp {
    /// The program with these costs of columns and these rows, whose columns rise and are among them. Costs and
    /// rows are at most `MAX_PROGRAM_SIZE` together, and numbers at most 2^127 - 1 in absolute value. It takes no memory.
    pub fn new(costs: Vec<u64>, rows: Vec<LpRow>) -> Lp
        requires { IsProgram (record { costs = costs.items; rows = map inequality_of rows.items }) }
        ensures { result ≡ record { costs = costs.items; rows = map inequality_of rows.items } }
    {
        Lp { costs, rows }
    }

    /// Whether the program can take a further row, under the conditions of `Lp::new`.
    pub fn takes(&self, row: &LpRow) -> bool
        ensures { IsTrue result ↔ IsProgram (with_row self.now (inequality_of row.now)) }
    {
        self.costs.len() + self.rows.len() + 1 <= MAX_PROGRAM_SIZE as usize
            && is_row(self.costs.len(), row)
    }

    /// Adds a row after the others. The error is that memory ran out, and leaves the program as it was.
    pub fn push(&mut self, row: LpRow) -> Result<(), AllocError>
        requires { IsProgram (with_row self.old (inequality_of row)) }
        ensures pushed { OnOk result (self.new ≡ with_row self.old (inequality_of row)) }
        ensures kept { OnErr result (self.new ≡ self.old) }
    {
        self.rows.push(row)?;
        Ok(())
    }

    /// How many variables the program has: its columns, and the slacks of its rows.
    pub fn variables(&self) -> u32
        ensures value { result ≡ column_count self.now + row_count self.now }
        ensures few { result ≤ MAX_PROGRAM_SIZE }
    {
        (self.costs.len() + self.rows.len()) as u32
    }

    /// The cells of a dictionary of the program: one more than the rows, times one more than the columns.
    pub fn cells(&self) -> u64
        ensures { result ≡ (row_count self.now + 1) * (column_count self.now + 1) }
    {
        (self.rows.len() as u64 + 1) * (self.costs.len() as u64 + 1)
    }
}

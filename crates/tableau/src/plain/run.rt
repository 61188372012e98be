// The run from the first dictionary to its end.
ghost use Rattle.std.specs.Prelude.{◌≡◌, ◌≤◌, ◌<◌, ◌+◌, ◌^◌, IfOk, length};
ghost use Rattle.tableau.specs.Program.{column_count, row_count};
ghost use Rattle.tableau.specs.Dictionary.{basic_at, cell, height, nonbasic_at, width};
ghost use Rattle.tableau.specs.Run.{IsPrimalFeasible};
ghost use Rattle.tableau.specs.declared.limits.TheConstants.{MAX_PROGRAM_SIZE};
ghost use Rattle.tableau.specs.Meaning.{coefficient_at, opposite_at, value_at};
ghost use Rattle.tableau.specs.Outcomes.{AreApart, AreValues, GivesEmpty, GivesLeast, IsCertain, IsNowhere, IsOutcome, IsPutIn};

use crate::plain::tableau::{Tableau, opposite, whole};
use crate::step::Step;
use crate::{Lp, Outcome};
use frac128::Frac;
use std::alloc::{AllocError, Global};

// Puts the value of a number in its place, if it is one of those from a first one on that the list has.
fn put(list: &mut Vec<Frac>, first: usize, number: u32, value: Frac)
    ensures { IsPutIn first number value list.old.items list.new.items }
{
    let number = number as usize;
    if number >= first && number - first < list.len() {
        list[number - first] = value;
    }
}

impl Tableau {
    // The values of so many variables from one on, where the nonbasic ones are 0.
    fn values(&self, alloc: Global, first: usize, count: usize) -> Result<Vec<Frac>, AllocError>
        requires { AreApart (height self.now) (basic_at self.now) }
        ensures { IfOk result (λ list. AreValues (value_at self.now) first count list.items) }
    {
        let mut list = Vec::new(alloc);
        list.resize(count, whole(0))?;
        for row in 0..self.height() {
            put(&mut list, first, self.basic(row), self.constant(row));
        }
        Ok(list)
    }

    // The coefficients of so many variables from one on in a row, 0 for those that are basic.
    fn coefficients(
        &self,
        alloc: Global,
        row: usize,
        first: usize,
        count: usize,
    ) -> Result<Vec<Frac>, AllocError>
        requires row { row < height self.now }
        requires apart { AreApart (width self.now) (nonbasic_at self.now) }
        ensures { IfOk result (λ list.
            AreValues (coefficient_at self.now row) first count list.items) }
    {
        let mut list = Vec::new(alloc);
        list.resize(count, whole(0))?;
        for column in 0..self.width() {
            put(
                &mut list,
                first,
                self.nonbasic(column),
                self.cell(row, column),
            );
        }
        Ok(list)
    }

    // The multipliers that a row gives: 1 for its own variable, and for others their coefficients with the sign
    // changed.
    fn opposites(
        &self,
        alloc: Global,
        row: usize,
        first: usize,
        count: usize,
    ) -> Result<Vec<Frac>, AllocError>
        requires row { row < height self.now }
        requires apart { AreApart (width self.now) (nonbasic_at self.now) }
        requires own { IsNowhere self.now row }
        ensures { IfOk result (λ list.
            AreValues (opposite_at self.now row) first count list.items) }
    {
        let mut list = self.coefficients(alloc, row, first, count)?;
        for place in 0..count {
            list[place] = opposite(list[place]);
        }
        put(&mut list, first, self.basic(row), whole(1));
        Ok(list)
    }

    // What the last dictionary gives.
    pub(crate) fn least(
        &self,
        alloc: Global,
        columns: usize,
        rows: usize,
    ) -> Result<Outcome, AllocError>
        requires some { 1 ≤ height self.now }
        requires few { columns ≤ MAX_PROGRAM_SIZE }
        requires rows_apart { AreApart (height self.now) (basic_at self.now) }
        requires columns_apart { AreApart (width self.now) (nonbasic_at self.now) }
        ensures { IfOk result (GivesLeast self.now columns rows) }
    {
        let point = self.values(alloc, 1, columns)?;
        let multipliers = self.coefficients(alloc, 0, columns + 1, rows)?;
        Ok(Outcome::Least {
            point,
            multipliers,
            value: self.constant(0),
        })
    }

    // What a row that can't hold gives.
    pub(crate) fn empty(
        &self,
        alloc: Global,
        row: usize,
        columns: usize,
        rows: usize,
    ) -> Result<Outcome, AllocError>
        requires row { row < height self.now }
        requires few { columns ≤ MAX_PROGRAM_SIZE }
        requires columns_apart { AreApart (width self.now) (nonbasic_at self.now) }
        requires own { IsNowhere self.now row }
        ensures { IfOk result (GivesEmpty self.now row columns rows) }
    {
        let multipliers = self.opposites(alloc, row, columns + 1, rows)?;
        Ok(Outcome::Empty { multipliers })
    }
}

/// The outcome of the program after at most so many pivots, as `Lp::solve` gives it.
pub fn solve(lp: &Lp, alloc: Global, pivots: u32) -> Result<Outcome, AllocError>
    ensures outcome { IfOk result (IsOutcome lp.now pivots) }
    ensures certain { IfOk result (IsCertain lp.now) }
{
    let columns = lp.costs.len();
    let rows = lp.rows.len();
    let mut tableau = Tableau::start(alloc, lp)?;
    for made in 0..pivots {
        match tableau.step() {
            Step::Last => return tableau.least(alloc, columns, rows),
            Step::Empty(row) => return tableau.empty(alloc, row, columns, rows),
            Step::Pivoted => {}
            Step::Refused { row, column } => {
                return Ok(Outcome::Passed {
                    pivot: made + 1,
                    row,
                    column,
                });
            }
        }
    }
    match tableau.leaving() {
        Some(row) => {
            if tableau.has_candidate(row) {
                Ok(Outcome::Stopped { pivots })
            } else {
                tableau.empty(alloc, row, columns, rows)
            }
        }
        None => tableau.least(alloc, columns, rows),
    }
}

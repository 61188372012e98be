// Dictionaries and their pivots.
ghost use Rattle.std.specs.Prelude.{◌≡◌, ◌≢◌, ◌≤◌, ◌<◌, ◌+◌, ◌*◌, ◌^◌, ℕ, unsigned_abs, false, ◌↔◌, IfErr, IfOk, IfSome, IsNone, IsTrue, length, OnOk};
ghost use Rattle.rational.specs.Rational.{whole, neg_ℚ, ◌*ℚ◌, ◌-ℚ◌};
ghost use Rattle.frac128.specs.Limits.{Fits, divided_ℚ};
ghost use Rattle.tableau.specs.Program.{zero_ℚ};
ghost use Rattle.tableau.specs.Dictionary.{IsPivoted, basic_at, cell, height, nonbasic_at, width};
ghost use Rattle.tableau.specs.Run.{IsCandidate, IsEntering, IsPrimalFeasible, IsLeaving, OtherFits, RatioFits, RowFits, UpdateFits};
ghost use Rattle.tableau.specs.Steps.{AreExchanged, CellFits, GoesBefore, HasNoneTo, HasSameNames, IsBetter, IsDivided, IsLower, IsRefusedRatio, IsRowUpdated, IsSet, AreBelow, AreColumns, AreCopied, AreListed, RatiosFitTo, UpdatesFit};

use crate::marks::{is_marked, mark};
use frac128::{Frac, Ratio};
use std::cmp::Ordering;
use std::marker::Model;

// A tableau holds a `Dictionary`: the numbers of the variables of rows and columns, and the cells. Row 0 is the cost's,
// and column 0 has the constants, which stand in a list of their own; the cells of the other columns stand row by row.
// A cell that isn't 0 has a mark, by its row and column, so that a search for such cells reads a bit of each.
#[derive(Debug, Drop)]
pub struct Tableau {
    pub(crate) basic: Vec<u32>,
    pub(crate) nonbasic: Vec<u32>,
    pub(crate) constants: Vec<Frac>,
    pub(crate) cells: Vec<Frac>,
    pub(crate) marks: Vec<u64>,
}

impl Model for Tableau {
    ghost use Rattle.tableau.specs.Dictionary.{Dictionary};
    ghost use Rattle.tableau.specs.Held.{IsShapedInside, dictionary_in};

    ghost Value = { Dictionary };

    ghost view = { dictionary_in };

    ghost invariant = { IsShapedInside };
}

// A whole number.
pub(crate) fn whole(number: i128) -> Frac
    requires small { unsigned_abs number < 2 ^ 127 }
    ensures { result ≡ whole number }
{
    Frac::whole(number).unwrap()
}

// The opposite of a number.
pub(crate) fn opposite(number: Frac) -> Frac
    ensures { result ≡ zero_ℚ -ℚ number }
{
    -number
}

impl Tableau {
    // The number of rows, the cost's among them.
    pub(crate) fn height(&self) -> usize
        ensures value { result ≡ height self.now }
        ensures some { 1 ≤ result }
    {
        self.basic.len()
    }

    // The number of columns, that of the constants among them.
    pub(crate) fn width(&self) -> usize
        ensures value { result ≡ width self.now }
        ensures some { 1 ≤ result }
    {
        self.nonbasic.len()
    }

    // The number of a row's variable.
    pub(crate) fn basic(&self, row: usize) -> u32
        requires row { row < height self.now }
        ensures { result ≡ basic_at self.now row }
    {
        self.basic[row]
    }

    // The number of a column's variable.
    pub(crate) fn nonbasic(&self, column: usize) -> u32
        requires column { column < width self.now }
        ensures { result ≡ nonbasic_at self.now column }
    {
        self.nonbasic[column]
    }

    pub(crate) fn cell(&self, row: usize, column: usize) -> Frac
        requires row { row < height self.now }
        requires column { column < width self.now }
        ensures { result ≡ cell self.now row column }
    {
        if column == 0 {
            return self.constants[row];
        }
        self.cells[row * (self.nonbasic.len() - 1) + (column - 1)]
    }

    // The value of a row's variable where the nonbasic ones are 0.
    pub(crate) fn constant(&self, row: usize) -> Frac
        requires row { row < height self.now }
        ensures { result ≡ cell self.now row 0 }
    {
        self.constants[row]
    }

    // The place of a cell's mark.
    fn mark_place(&self, row: usize, column: usize) -> usize
        requires row { row < height self.now }
        requires column { column < width self.now }
        ensures { result ≡ row * width self.now + column }
    {
        row * self.nonbasic.len() + column
    }

    // Whether a cell isn't 0. A cell without a mark is not read.
    fn has(&self, row: usize, column: usize) -> bool
        requires row { row < height self.now }
        requires column { column < width self.now }
        ensures yes { IsTrue result → cell self.now row column ≢ zero_ℚ }
        ensures no { result ≡ false → cell self.now row column ≡ zero_ℚ }
    {
        if !is_marked(&self.marks, self.mark_place(row, column)) {
            return false;
        }
        !self.cell(row, column).is_zero()
    }

    pub(crate) fn set(&mut self, row: usize, column: usize, value: Frac)
        requires row { row < height self.old }
        requires column { column < width self.old }
        ensures { IsSet self.old row column value self.new }
    {
        let width = self.nonbasic.len();
        let place = self.mark_place(row, column);
        mark(&mut self.marks, place);
        if column == 0 {
            self.constants[row] = value;
        } else {
            self.cells[row * (width - 1) + (column - 1)] = value;
        }
    }

    // Of a row and the best before it the one of the least-numbered variable of those with a negative value.
    fn lower(&self, best: Option<usize>, row: usize) -> Option<usize>
        requires best { IfSome best (λ k. k < height self.now) }
        requires row { row < height self.now }
        ensures { IsLower self.now best row result }
    {
        if !self.constant(row).is_negative() {
            return best;
        }
        let Some(lowest) = best else {
            return Some(row);
        };
        if self.basic(row) < self.basic(lowest) {
            return Some(row);
        }
        best
    }

    // The row of the least-numbered basic variable whose value is negative.
    pub(crate) fn leaving(&self) -> Option<usize>
        ensures some { IfSome result (IsLeaving self.now) }
        ensures none { IsNone result → IsPrimalFeasible self.now }
    {
        let mut best = None;
        for row in 1..self.height() {
            best = self.lower(best, row);
        }
        best
    }

    // Whether a variable has a positive coefficient in a row.
    pub(crate) fn has_candidate(&self, row: usize) -> bool
        requires row { row < height self.now }
        ensures some { IsTrue result → (t : ℕ) × IsCandidate self.now row t }
        ensures none { result ≡ false → (t : ℕ) → IsCandidate self.now row t → ⊥ }
    {
        for column in 1..self.width() {
            if self.cell(row, column).is_positive() {
                return true;
            }
        }
        false
    }

    // Whether a column of this ratio goes before the best so far, if there is one: by ratio, and then by number.
    fn goes_before(&self, column: usize, ratio: &Ratio, best: &Option<(usize, Ratio)>) -> bool
        requires column { column < width self.now }
        requires best { IfSome best.now (λ p. p.0 < width self.now) }
        ensures { IsTrue result ↔ GoesBefore self.now column ratio.now best.now }
    {
        let Some((other, least)) = best else {
            return true;
        };
        match ratio.compare(least) {
            Ordering::Less => true,
            Ordering::Equal => self.nonbasic(column) < self.nonbasic(*other),
            Ordering::Greater => false,
        }
    }

    // Of a column and the best before it the one that enters, with its ratio; or the column, where its ratio doesn't fit.
    fn better(
        &self,
        row: usize,
        best: Option<(usize, Ratio)>,
        column: usize,
    ) -> Result<Option<(usize, Ratio)>, usize>
        requires row { row < height self.now }
        requires best { IfSome best (λ p. p.0 < width self.now) }
        requires column { column < width self.now }
        ensures better { IfOk result (IsBetter self.now row best column) }
        ensures refused { IfErr result (IsRefusedRatio self.now row) }
    {
        if column == 0 {
            return Ok(best);
        }
        let coefficient = self.cell(row, column);
        if !coefficient.is_positive() {
            return Ok(best);
        }
        let Some(ratio) = self.cell(0, column).ratio(coefficient) else {
            return Err(column);
        };
        if self.goes_before(column, &ratio, &best) {
            return Ok(Some((column, ratio)));
        }
        Ok(best)
    }

    // The column of least ratio of reduced cost to coefficient among the candidates of a row, by number where
    // ratios are equal; or the column whose ratio doesn't fit. The columns are those of the row that don't have 0.
    pub(crate) fn entering(&self, row: usize, columns: &[usize]) -> Result<Option<usize>, usize>
        requires row { row < height self.now }
        requires columns { AreColumns self.now row columns.now }
        ensures column { IfOk result (λ found. IfSome found (IsEntering self.now row)) }
        ensures fit { IfOk result (λ found. RatiosFitTo self.now row (width self.now)) }
        ensures none { IfOk result (λ found. IsNone found
            → HasNoneTo self.now row (width self.now)) }
        ensures refused { IfErr result (IsRefusedRatio self.now row) }
    {
        let mut best = None;
        for place in 0..columns.len() {
            best = self.better(row, best, columns[place])?;
        }
        match best {
            Some((column, _)) => Ok(Some(column)),
            None => Ok(None),
        }
    }

    // Lists the columns of a row that don't have 0, in order, and says how many they are.
    pub(crate) fn list_columns(&self, row: usize, columns: &mut [usize]) -> usize
        requires row { row < height self.now }
        requires room { width self.now ≤ length columns.old }
        ensures size { length columns.new ≡ length columns.old }
        ensures listed { AreListed self.now row columns.new result (width self.now) }
    {
        let mut count = 0;
        for column in 0..self.width() {
            if self.has(row, column) {
                columns[count] = column;
                count += 1;
            }
        }
        count
    }

    // Copies the cells of a row in some columns. They lie far apart, so that they are read at one go.
    fn copy_row(&self, row: usize, columns: &[usize], copies: &mut [Frac])
        requires row { row < height self.now }
        requires columns { AreBelow (width self.now) columns.now }
        requires room { length columns.now ≤ length copies.old }
        ensures size { length copies.new ≡ length copies.old }
        ensures copied { AreCopied self.now row columns.now (length columns.now) copies.new }
    {
        for place in 0..columns.len() {
            copies[place] = self.cell(row, columns[place]);
        }
    }

    // Takes a multiple of a cell of the pivot row from that of another row, which is known, or is false where that doesn't
    // fit.
    fn reduce(
        &mut self,
        pivot_row: usize,
        row: usize,
        column: usize,
        old: Frac,
        factor: Frac,
    ) -> bool
        requires pivot_row { pivot_row < height self.old }
        requires row { row < height self.old }
        requires column { column < width self.old }
        requires old { old ≡ cell self.old row column }
        ensures done { IsTrue result → IsSet self.old row column
            (cell self.old row column -ℚ factor *ℚ cell self.old pivot_row column) self.new }
        ensures fits { IsTrue result → CellFits self.old pivot_row row column factor }
        ensures refused { result ≡ false → (cell self.old pivot_row column ≢ zero_ℚ)
            × (CellFits self.old pivot_row row column factor → ⊥) }
        ensures names { HasSameNames self.old self.new }
    {
        let source = self.cell(pivot_row, column);
        if source.is_zero() {
            return true;
        }
        let Some(product) = factor.mul(source) else {
            return false;
        };
        let Some(difference) = old.sub(product) else {
            return false;
        };
        self.set(row, column, difference);
        true
    }

    // Takes a multiple of the pivot row from another row, so that its cell in the pivot column becomes its factor;
    // or the column whose cell doesn't fit. The columns are those of the pivot row that don't have 0.
    fn update_row(
        &mut self,
        pivot_row: usize,
        pivot_column: usize,
        row: usize,
        columns: &[usize],
        copies: &mut [Frac],
    ) -> Result<(), usize>
        requires pivot_row { pivot_row < height self.old }
        requires pivot_column { pivot_column < width self.old }
        requires row { row < height self.old }
        requires apart { row ≢ pivot_row }
        requires some { cell self.old pivot_row pivot_column ≢ zero_ℚ }
        requires columns { AreColumns self.old pivot_row columns.now }
        requires room { length columns.now ≤ length copies.old }
        ensures updated { OnOk result (IsRowUpdated self.old pivot_row pivot_column row self.new) }
        ensures refused { IfErr result (λ t. (t < width self.old)
            × (OtherFits self.old pivot_row pivot_column row t → ⊥)) }
        ensures names { HasSameNames self.old self.new }
        ensures size { length copies.new ≡ length copies.old }
    {
        if !self.has(row, pivot_column) {
            return Ok(());
        }
        let old = self.cell(row, pivot_column);
        let Some(factor) = old.div(self.cell(pivot_row, pivot_column)) else {
            return Err(pivot_column);
        };
        self.copy_row(row, columns, copies);
        for place in 0..columns.len() {
            let column = columns[place];
            if column != pivot_column
                && !self.reduce(pivot_row, row, column, copies[place], factor)
            {
                return Err(column);
            }
        }
        self.set(row, pivot_column, factor);
        Ok(())
    }

    // Multiplies a cell, or is false where that doesn't fit.
    fn multiply(&mut self, row: usize, column: usize, factor: Frac) -> bool
        requires row { row < height self.old }
        requires column { column < width self.old }
        ensures done { IsTrue result → IsSet self.old row column
            (cell self.old row column *ℚ factor) self.new }
        ensures fits { IsTrue result → cell self.old row column ≢ zero_ℚ
            → Fits (cell self.old row column *ℚ factor) }
        ensures refused { result ≡ false → (cell self.old row column ≢ zero_ℚ)
            × (Fits (cell self.old row column *ℚ factor) → ⊥) }
        ensures names { HasSameNames self.old self.new }
    {
        let old = self.cell(row, column);
        if old.is_zero() {
            return true;
        }
        let Some(product) = old.mul(factor) else {
            return false;
        };
        self.set(row, column, product);
        true
    }

    // Solves the pivot row for the entering variable; or the column whose cell doesn't fit. The columns are those of the
    // row that don't have 0.
    fn divide_row(
        &mut self,
        pivot_row: usize,
        pivot_column: usize,
        columns: &[usize],
    ) -> Result<(), usize>
        requires pivot_row { pivot_row < height self.old }
        requires pivot_column { pivot_column < width self.old }
        requires some { cell self.old pivot_row pivot_column ≢ zero_ℚ }
        requires columns { AreColumns self.old pivot_row columns.now }
        ensures divided { OnOk result (IsDivided self.old pivot_row pivot_column self.new) }
        ensures refused { IfErr result (λ t. (t < width self.old)
            × (RowFits self.old pivot_row pivot_column t → ⊥)) }
        ensures names { HasSameNames self.old self.new }
    {
        let Some(corner) = whole(1).div(self.cell(pivot_row, pivot_column)) else {
            return Err(pivot_column);
        };
        let factor = opposite(corner);
        for place in 0..columns.len() {
            let column = columns[place];
            if column != pivot_column && !self.multiply(pivot_row, column, factor) {
                return Err(column);
            }
        }
        self.set(pivot_row, pivot_column, corner);
        Ok(())
    }

    // Exchanges the variables of a row and a column.
    fn exchange(&mut self, row: usize, column: usize)
        requires row { row < height self.old }
        requires column { column < width self.old }
        ensures { AreExchanged self.old row column self.new }
    {
        let leaving = self.basic[row];
        self.basic[row] = self.nonbasic[column];
        self.nonbasic[column] = leaving;
    }

    // The pivot of a row and a column, or the row and the column of the cell that doesn't fit: the other rows
    // first, in order, and each by columns.
    pub(crate) fn pivot(
        &mut self,
        row: usize,
        column: usize,
        columns: &[usize],
        copies: &mut [Frac],
    ) -> Result<(), (usize, usize)>
        requires row { row < height self.old }
        requires column { column < width self.old }
        requires some { cell self.old row column ≢ zero_ℚ }
        requires columns { AreColumns self.old row columns.now }
        requires room { length columns.now ≤ length copies.old }
        ensures pivoted { OnOk result (IsPivoted self.old row column self.new) }
        ensures fits { OnOk result (UpdatesFit self.old row column) }
        ensures refused { IfErr result (λ p. (p.0 < height self.old) × (p.1 < width self.old)
            × (UpdateFits self.old row column p.0 p.1 → ⊥)) }
        ensures names { IfErr result (λ p. HasSameNames self.old self.new) }
    {
        for other in 0..self.height() {
            if other != row {
                match self.update_row(row, column, other, columns, copies) {
                    Ok(()) => {}
                    Err(refused) => return Err((other, refused)),
                }
            }
        }
        match self.divide_row(row, column, columns) {
            Ok(()) => {}
            Err(refused) => return Err((row, refused)),
        }
        self.exchange(row, column);
        Ok(())
    }
}

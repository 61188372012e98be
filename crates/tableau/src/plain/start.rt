// The first dictionary of a program.
ghost use Rattle.std.specs.Prelude.{◌≡◌, ◌≤◌, ◌<◌, ◌+◌, ◌-◌, ℕ, IfOk, length};
ghost use Rattle.tableau.specs.Program.{IsRow, column_count, zero_ℚ};
ghost use Rattle.tableau.specs.Dictionary.{IsStart, cell, height, width};
ghost use Rattle.tableau.specs.Starts.{AreVariables, HasCosts, GainsRow, IsBlank};
ghost use Rattle.tableau.specs.Held.{inequality_of};
ghost use Rattle.tableau.specs.declared.limits.TheConstants.{MAX_PROGRAM_SIZE};

use crate::plain::tableau::{Tableau, opposite, whole};
use crate::{Lp, LpRow};
use std::alloc::{AllocError, Global};

// So many numbers from one on.
fn numbers(alloc: Global, first: usize, count: usize) -> Result<Vec<u32>, AllocError>
    requires { first + count ≤ MAX_PROGRAM_SIZE + 1 }
    ensures { IfOk result (λ list. AreVariables first count list.items) }
{
    let mut list = Vec::new(alloc);
    for place in 0..count {
        list.push((first + place) as u32)?;
    }
    Ok(list)
}

impl Tableau {
    // The variables of the first dictionary, and 0 in each cell.
    fn blank(alloc: Global, lp: &Lp) -> Result<Tableau, AllocError>
        ensures { IfOk result (IsBlank lp.now) }
    {
        let columns = lp.costs.len();
        let rows = lp.rows.len();
        let mut basic = numbers(alloc, columns, rows + 1)?;
        basic[0] = (columns + 1 + rows) as u32;
        let nonbasic = numbers(alloc, 0, columns + 1)?;
        let mut cells = Vec::new(alloc);
        cells.resize((rows + 1) * (columns + 1), whole(0))?;
        Ok(Tableau {
            basic,
            nonbasic,
            cells,
        })
    }

    // Puts the costs in row 0.
    fn put_costs(&mut self, lp: &Lp)
        requires rows { 1 ≤ height self.old }
        requires columns { width self.old ≡ column_count lp.now + 1 }
        ensures { HasCosts lp.now (column_count lp.now) self.old self.new }
    {
        for column in 0..lp.costs.len() {
            self.set(0, column + 1, whole(lp.costs[column] as i128));
        }
    }

    // Puts a row of the program in a row of zeros.
    fn put_row(&mut self, row: usize, source: &LpRow)
        requires row { row < height self.old }
        requires columns { 1 ≤ width self.old }
        requires terms { IsRow (width self.old - 1) (inequality_of source.now) }
        requires zero { (t : ℕ) → t < width self.old → cell self.old row t ≡ zero_ℚ }
        ensures { GainsRow (inequality_of source.now) row self.old self.new }
    {
        self.set(row, 0, opposite(whole(source.right)));
        for place in 0..source.terms.len() {
            let term = source.terms[place];
            self.set(row, term.column as usize, whole(term.times));
        }
    }

    /// The first dictionary of a program: the slacks are basic.
    pub(crate) fn start(alloc: Global, lp: &Lp) -> Result<Tableau, AllocError>
        ensures { IfOk result (IsStart lp.now) }
    {
        let mut tableau = Tableau::blank(alloc, lp)?;
        tableau.put_costs(lp);
        for row in 0..lp.rows.len() {
            tableau.put_row(row + 1, &lp.rows[row]);
        }
        Ok(tableau)
    }
}

// One step of a run.
ghost use Rattle.std.specs.Prelude.{◌≡◌, ◌≤◌, ◌<◌, length};
ghost use Rattle.tableau.specs.Outcomes.{DoesStep, row_number};
ghost use Rattle.tableau.specs.Dictionary.{height, width};

use crate::tableau::Tableau;
use frac128::Frac;

/// What a step did.
#[derive(Debug)]
pub enum Step {
    // No constant is negative.
    Last,
    // A row can't hold.
    Empty(usize),
    // Two variables have changed places.
    Pivoted,
    // A ratio or a cell doesn't fit; these are the numbers of its variables.
    Refused { row: u32, column: u32 },
}

impl Tableau {
    // The number that stands for a row in an outcome.
    fn row_number(&self, row: usize) -> u32
        requires { row < height self.now }
        ensures { result ≡ row_number self.now row }
    {
        if row == 0 { 0 } else { self.basic(row) }
    }

    // One step by the least-index rule. The lists have room for a row: for the columns that don't have 0, and for a copy.
    pub(crate) fn step(&mut self, columns: &mut [usize], copies: &mut [Frac]) -> Step
        requires columns_room { width self.old ≤ length columns.old }
        requires copies_room { width self.old ≤ length copies.old }
        ensures step { DoesStep self.old self.new result }
        ensures width { width self.new ≡ width self.old }
    {
        let Some(row) = self.leaving() else {
            return Step::Last;
        };
        let count = self.list_columns(row, columns);
        let columns = &columns[..count];
        match self.entering(row, columns) {
            Ok(Some(column)) => match self.pivot(row, column, columns, copies) {
                Ok(()) => Step::Pivoted,
                Err((other, refused)) => Step::Refused {
                    row: self.row_number(other),
                    column: self.nonbasic(refused),
                },
            },
            Ok(None) => Step::Empty(row),
            Err(column) => Step::Refused {
                row: 0,
                column: self.nonbasic(column),
            },
        }
    }
}

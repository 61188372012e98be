// One step of a run.
ghost use Rattle.std.specs.Prelude.{◌≡◌, ◌<◌};
ghost use Rattle.tableau.specs.Outcomes.{DoesStep, row_number};
ghost use Rattle.tableau.specs.Dictionary.{height};

use crate::plain::tableau::Tableau;
use crate::step::Step;

impl Tableau {
    // The number that stands for a row in an outcome.
    fn row_number(&self, row: usize) -> u32
        requires { row < height self.now }
        ensures { result ≡ row_number self.now row }
    {
        if row == 0 { 0 } else { self.basic(row) }
    }

    // One step by the least-index rule.
    pub(crate) fn step(&mut self) -> Step
        ensures { DoesStep self.old self.new result }
    {
        let Some(row) = self.leaving() else {
            return Step::Last;
        };
        match self.entering(row) {
            Ok(Some(column)) => match self.pivot(row, column) {
                Ok(()) => Step::Pivoted,
                Err((other, refused)) => Step::Refused {
                    row: self.row_number(other),
                    column: self.nonbasic(refused),
                },
            },
            Ok(None) => Step::Empty(row),
            Err(column) => Step::Refused {
                row: 0,
                column: self.nonbasic(column),
            },
        }
    }
}

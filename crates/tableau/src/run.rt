// Runs in single steps.
ghost use Rattle.tableau.specs.Stepwise.{DoesSay, IsAtEnd, IsEndAfter, IsEndOf, IsStarted, TellsEnd};
ghost use Rattle.tableau.specs.Outcomes.{IsCertain, IsOutcome};
ghost use Rattle.std.specs.Prelude.{IfOk, ℕ};

use crate::start::zeros;
use crate::step::Step;
use crate::tableau::Tableau;
use crate::{Lp, Outcome};
use frac128::Frac;
use std::alloc::{AllocError, Global};
use std::marker::Model;

/// What a step of a run says.
#[derive(Clone, Copy, Debug)]
pub enum StepSays {
    /// One pivot was made.
    Moved,
    /// The run ends here, optimal or infeasible, and nothing has changed.
    Ended,
    /// Overflow: a ratio or a cell of the next pivot doesn't fit 128 bits. The run can't go on.
    Passed {
        /// The number of the row's basic variable, and 0 for the cost.
        row: u32,
        /// The number of the column's nonbasic variable, and 0 for the constants.
        column: u32,
    },
}

/// A run of the dual simplex by the least-index rule, pivot by pivot.
#[derive(Debug, Drop)]
pub struct Run {
    tableau: Tableau,
    refused: Option<(u32, u32)>,
    // The columns that don't have 0 in the pivot row, and their cells in another row, of one pivot.
    columns: Vec<usize>,
    copies: Vec<Frac>,
}

impl Model for Run {
    ghost use Rattle.tableau.specs.Stepwise.{State};
    ghost use Rattle.tableau.specs.RunHeld.{HasRoomInside, state_in};

    ghost Value = { State };

    ghost view = { state_in };

    ghost invariant = { HasRoomInside };
}

impl Run {
    /// The run of a program at the slack basis. It takes memory for one dictionary. The error is that memory ran out.
    pub fn start(alloc: Global, lp: &Lp) -> Result<Run, AllocError>
        ensures { IfOk result (IsStarted lp.now) }
    {
        let tableau = Tableau::start(alloc, lp)?;
        let mut columns = Vec::new(alloc);
        columns.resize(lp.costs.len() + 1, 0)?;
        let copies = zeros(alloc, lp.costs.len() + 1)?;
        Ok(Run {
            tableau,
            refused: None,
            columns,
            copies,
        })
    }

    /// Makes one pivot, or says why there is none. After `Passed` every step says the same. It takes no memory.
    pub fn step(&mut self) -> StepSays
        ensures { DoesSay self.old self.new result }
    {
        if let Some((row, column)) = self.refused {
            return StepSays::Passed { row, column };
        }
        match self.tableau.step(&mut self.columns, &mut self.copies) {
            Step::Pivoted => StepSays::Moved,
            Step::Last => StepSays::Ended,
            Step::Empty(_) => StepSays::Ended,
            Step::Refused { row, column } => {
                self.refused = Some((row, column));
                StepSays::Passed { row, column }
            }
        }
    }

    /// Whether the run can't go on: no constant is negative, or the row that leaves has no column that may enter. It takes
    /// no memory.
    pub fn has_ended(&self) -> bool
        ensures { TellsEnd self.now result }
    {
        let Some(row) = self.tableau.leaving() else {
            return true;
        };
        if self.tableau.has_candidate(row) {
            return false;
        }
        true
    }

    /// The outcome of a run that has ended: `Least` or `Empty`. The error is that memory ran out.
    pub fn finish(self, lp: &Lp, alloc: Global) -> Result<Outcome, AllocError>
        requires { IsAtEnd lp.now self }
        ensures outcome { IfOk result (IsEndOf lp.now) }
        ensures length { (made : ℕ) → IsEndAfter lp.now made self
            → IfOk result (IsOutcome lp.now made) }
        ensures certain { IfOk result (IsCertain lp.now) }
    {
        let columns = lp.costs.len();
        let rows = lp.rows.len();
        match self.tableau.leaving() {
            Some(row) => self.tableau.empty(alloc, row, columns, rows),
            None => self.tableau.least(alloc, columns, rows),
        }
    }
}

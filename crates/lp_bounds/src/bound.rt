// The base bound of a model.
ghost use Rattle.std.specs.Prelude.{IfOk};
ghost use Rattle.lot_sizing.specs.Best.{IsFloor, IsImpossible};
ghost use Rattle.lp_bounds.specs.Bounds.{HasNoBasePoint, IfBound, IfEmpty, IsBaseBound, PassesAsRun, SkipsExactly};
ghost use Rattle.lp_bounds.specs.Solved.{IsAmountRounded, IsSolved};

use crate::laws::base_bounds_are_floors;
use frac128::Frac;
use least_index::solve_to_end;
use lot_model::{Instance, an_instance_breaks_no_rule};
use lp_relaxation::{MAX_CELLS, base_names_are_all, base_program, empty_is_said, least_is_said};
use std::alloc::{AllocError, Global};
use tableau::{Lp, Outcome};

/// What is known of the base bound.
#[derive(Clone, Copy, Debug, PartialEq, Eq)]
pub enum BoundSays {
    /// The base bound, in units of money.
    Bound(u128),
    /// No point meets all base rows, so that no plan is feasible.
    Empty,
    /// The tableau is too large.
    Skipped {
        /// Its cells: one more than the rows, times one more than the columns.
        cells: u64,
    },
    /// A number of the run doesn't fit 128 bits.
    Passed {
        /// The pivot, counted from 1. One past 2^32 - 1 is given as 2^32 - 1.
        pivot: u32,
        /// The number of the row's basic variable before the pivot, and 0 for the cost.
        row: u32,
        /// The number of the column's nonbasic variable before the pivot, and 0 for the constants.
        column: u32,
    },
}

// The amount of a cost rounded up. No cost is below 0.
fn rounded_up(value: Frac) -> u128
    ensures { IsAmountRounded value result }
{
    value.ceil().unsigned_abs()
}

// What the run over a program comes to.
fn solved(alloc: Global, lp: &Lp) -> Result<BoundSays, AllocError>
    ensures { IfOk result (IsSolved lp.now) }
{
    match solve_to_end(alloc, lp)? {
        Outcome::Least { value, .. } => Ok(BoundSays::Bound(rounded_up(value))),
        Outcome::Empty { .. } => Ok(BoundSays::Empty),
        Outcome::Passed { pivot, row, column } => Ok(BoundSays::Passed { pivot, row, column }),
        // The run has no limit on pivots.
        Outcome::Stopped { .. } => unreachable!(),
    }
}

/// The base bound of a model: the least cost of a point that meets all rows which the rules of plans make, without cuts,
/// rounded up to a whole number. No feasible plan costs less, and none is feasible where no point meets the rows.
///
/// It is skipped where the tableau of these rows has more than `MAX_CELLS` cells. An equal row has two rows of the tableau.
/// The run by the least-index rule may pass 128 bits. It takes time in the number of cells for each pivot, and there is
/// no useful limit on their number. The error is that memory ran out.
pub fn base_bound(alloc: Global, instance: &Instance) -> Result<BoundSays, AllocError>
    ensures bound { IfOk result (IfBound (IsBaseBound instance.now)) }
    ensures floor { IfOk result (IfBound (IsFloor instance.now)) }
    ensures empty { IfOk result (IfEmpty (HasNoBasePoint instance.now)) }
    ensures impossible { IfOk result (IfEmpty (IsImpossible instance.now)) }
    ensures skipped { IfOk result (SkipsExactly instance.now) }
    ensures passed { IfOk result (PassesAsRun instance.now) }
{
    least_is_said();
    empty_is_said();
    base_names_are_all();
    base_bounds_are_floors();
    an_instance_breaks_no_rule(instance);
    let round = base_program(alloc, instance)?;
    let cells = round.lp.cells();
    if cells > MAX_CELLS {
        return Ok(BoundSays::Skipped { cells });
    }
    solved(alloc, &round.lp)
}

// Runs to their end.
ghost use Rattle.std.specs.Prelude.{◌^◌, IfOk};
ghost use Rattle.tableau.specs.Outcomes.{IsCertain};
ghost use Rattle.tableau.specs.Stepwise.{IsEndOf};
ghost use Rattle.least_index.specs.Rounds.{DoesMake};

use crate::runs_are_short;
use std::alloc::{AllocError, Global};
use tableau::{Lp, Outcome, Run, StepSays};

// Makes a pivot and counts it.
fn step(run: &mut Run, made: &mut u32) -> StepSays
    ensures { DoesMake 1 run.old made.old run.new made.new result }
{
    let says = run.step();
    if let StepSays::Moved = says {
        *made = made.saturating_add(1);
    }
    says
}

// Makes 2^depth pivots, unless the run ends before. It calls itself for each half, since no counter holds their number; the
// calls nest as deep as the binary logarithm of the pivots made.
fn advance(run: &mut Run, made: &mut u32, depth: u32) -> StepSays
    ensures { DoesMake (2 ^ depth) run.old made.old run.new made.new result }
{
    if depth == 0 {
        return step(run, made);
    }
    match advance(run, made, depth - 1) {
        StepSays::Moved => advance(run, made, depth - 1),
        StepSays::Ended => StepSays::Ended,
        StepSays::Passed { row, column } => StepSays::Passed { row, column },
    }
}

/// Solves the program by the dual simplex with the least-index rule, as `Lp::solve` does, with no limit on pivots. The
/// outcome is never `Stopped`; a pivot of `Passed` past 2^32 - 1 is given as 2^32 - 1.
///
/// It returns, since no basis comes twice in a run, though the bound on pivots, 2 to the number of variables, says nothing
/// of use about the time. It takes memory for one dictionary and for the outcome, as `Lp::solve` does. The error is want of
/// memory.
pub fn solve_to_end(alloc: Global, lp: &Lp) -> Result<Outcome, AllocError>
    ensures outcome { IfOk result (IsEndOf lp.now) }
    ensures certain { IfOk result (IsCertain lp.now) }
{
    let mut run = Run::start(alloc, lp)?;
    let mut made = 0;
    for depth in 0..lp.variables() + 1 {
        match advance(&mut run, &mut made, depth) {
            StepSays::Moved => {}
            StepSays::Ended => return run.finish(lp, alloc),
            StepSays::Passed { row, column } => {
                let pivot = made.saturating_add(1);
                return Ok(Outcome::Passed { pivot, row, column });
            }
        }
    }
    // These rounds have more pivots than any run.
    runs_are_short();
    unreachable!()
}

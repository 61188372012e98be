//! The dual simplex over exact fractions: linear programs, and outcomes that multipliers prove.
//!
//! Family: numbers. It stands on `algebra`, `rational` and `frac128`; `least_index`, `existence`, `answers_exist`,
//! `lotplan` and the crates of the search that solve linear programs stand on it.
//!
//! A program asks for numbers of at least 0, one for each column, that meet every row, "the sum of the terms is at
//! least the right side", and cost least; costs are at least 0. Rows are made of `LpTerm`s and `LpRow`s. `is_program`
//! is exactly whether costs and rows can be given to `Lp::new`, `Lp::cells` says how large its dictionary is, and
//! `Lp::solve` makes at most so many pivots.
//!
//! An `Outcome` can be believed without the run. `Least`, optimal, has a point that meets all rows, and multipliers of at
//! least 0 whose sums over each column are at most its cost; both give `value`, so no point costs less. `Empty`,
//! infeasible, has multipliers of at least 0 whose sums over each column are at most 0 and whose sum of right sides is
//! positive, so no point meets all rows. The clause `certain` of `Lp::solve` says so.
//!
//! And it is that of the run by the least-index rule in fractions of any size, which the clause `outcome` says: `Stopped`
//! where the run would make one more pivot than it may, `Passed` where a ratio or a cell of the next pivot doesn't fit 128
//! bits. What a run comes to is laid down: two runs of one length end alike (`runs_are_one`), a run has one outcome
//! (`outcomes_are_one`), which is `Stopped` where it could go on (`stops_exactly`), and none has `Passed` while numerators
//! and denominators are below 2^31 (`small_numbers_fit`). All of it rests on dictionaries that say what their program
//! says, which pivots keep by whatever rule they are chosen (`dictionaries_are_kept`).
//!
//! A certificate has whole multipliers. `whole_multipliers` gives fractions over their least common denominator, which is
//! one (`leaves_are_one`), where all of it is below 2^127; they prove what the fractions prove (`leaves_prove`).
#![tactic(auto)]

mod denominators;
mod laws;
mod limits;
mod marks;
mod outcome;
pub mod plain;
mod program;
mod run;
mod solve;
mod start;
mod step;
mod tableau;

pub use denominators::{WholeMultipliers, whole_multipliers};
pub use laws::{
    dictionaries_are_kept, leaves_are_one, leaves_prove, outcomes_are_one, outcomes_prove,
    runs_are_one, small_numbers_fit, stops_exactly,
};
pub use limits::MAX_PROGRAM_SIZE;
pub use outcome::Outcome;
pub use program::{Lp, LpRow, LpTerm, is_program};
pub use run::{Run, StepSays};

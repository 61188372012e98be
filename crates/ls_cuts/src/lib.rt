//! The (l,S) rows of echelons, and which of them a point violates most.
//!
//! Family: cuts. It stands on `frac128`, `echelon`, `lin_rows`, `valid_inequalities` and `echelon_rows`; the
//! certificate's checker and the search stand on it.
//!
//! `ls_row` gives the row of an `EchelonItem`, a period `l` and a set `S` of periods up to `l`. It holds at every
//! feasible plan of each problem whose lead-free item has this echelon. `separate` looks at a `Point` of the linear
//! model for the set whose row is violated most, evaluated in exact fractions of 128 bits; a `SepFault` says
//! why it gives no answer.
//!
//! Laws are contracts of functions that do nothing: `ls_rows_hold`, `ls_rows_are_rows` (their columns are those of the
//! problem and rise), `alike_rows_are_one` (a row goes by what the echelon is up to its `l`), `left_sides_are_rows` (what is evaluated is the row's left side), `lesser_separates` (what the evaluation says of all rows of an `l`) and `points_have_fractions`
//! (a point with given fractions at all columns has them at the columns of such rows).
#![tactic(auto)]

mod backlogs;
mod choices;
mod demand;
mod fault;
mod laws;
mod row;
mod separation;

pub use fault::SepFault;
pub use laws::{
    alike_rows_are_one, left_sides_are_rows, lesser_separates, ls_rows_are_rows, ls_rows_hold,
    points_have_fractions,
};
pub use row::ls_row;
pub use separation::separate;

//! The linear relaxation of a problem with all (l,S) inequalities, the value to which it closes, and the linear program of
//! the root's rounds, from named rows and back to leaves and to the relaxation.
//!
//! Family: search. It stands on `tableau`, `lin_rows`, `ls_cuts` and `cert_meaning`; `lp_root`, `lp_bounds`, `branching`,
//! `heur_setup_lps` and `answers_exist` stand on it.
//!
//! A point of the relaxation (`IsRelaxed` in `specs/Relaxation`) meets all rows that the rules of plans make and, for
//! each lead-free item, each last period `l` and each set `S` of periods, the (l,S) row (Barany, Van Roy and Wolsey,
//! 1984). The closed value is the whole number c such that some such point costs at most c and each costs more than
//! c - 1 (`IsClosedValue`). The definitions know no linear program and no rounds of separation. `Closes` and
//! `HasNoPoint` say it of a problem, whichever largest totals and weights of it are taken.
//!
//! `plans_are_relaxed` says that a feasible plan is a point of the relaxation, so that no plan costs less than the closed
//! value (`closed_values_are_floors`), and that where the relaxation has no point there is no plan
//! (`empty_is_impossible`). `closed_values_are_one` says that there is at most one closed value, and none where there is
//! no point; `relaxations_are_one` that it is the same whichever largest totals and weights are taken. `worked_is_closed`
//! shows a problem whose relaxation closes to 20.
//!
//! `base_names` has the names of all rows that the rules of plans make, in their order, and `base_program` the linear
//! program of these rows: columns by their numbers, with their costs, and each row as a sum that is at least its right
//! side. An equal row stands there twice, first as it is and then with all signs changed. So a row of the program is a
//! `Side`: a row's name, and whether its signs are changed. `push_row` adds the row of a cut.
//!
//! `leaf_parts` makes the parts of a certificate's leaf from whole multipliers of the sides, and `whole_leaf` from
//! multipliers in fractions, over their least common denominator. What all of it comes to is said by laws, contracts of
//! functions that do nothing. `least_is_said` and `empty_is_said` say what the outcome of a program of any named rows says
//! of points of the linear model, and that the parts are a leaf which says so. `rounds_close` and `rounds_refute` say it of
//! a round: where separation finds no row at its least point, the relaxation closes to the point's cost rounded up, and
//! where no point meets its rows the relaxation has none. `rounds_grow`, `rows_are_small`, `sides_are_rows` and
//! `rounds_are_few` serve to make the programs.
#![tactic(auto)]

mod costs;
mod laws;
mod leaf;
mod limits;
mod names;
mod program;
mod rounds;
mod values;

pub use costs::column_costs;
pub use laws::{
    base_names_are_all, empty_is_said, least_is_said, rounds_are_few, rounds_close, rounds_grow,
    rounds_refute, rows_are_small, sides_are_rows,
};
pub use leaf::{LEAF_LINE, WholeLeaf, leaf_parts, whole_leaf};
pub use limits::{MAX_CELLS, MAX_PIVOTS, MAX_ROUND_CUTS, MAX_ROUND_SIZE};
pub use names::base_names;
pub use program::Side;
pub use rounds::{RoundProgram, base_program, push_row};
pub use values::{
    closed_values_are_floors, closed_values_are_one, empty_is_impossible, plans_are_relaxed,
    relaxations_are_one, worked_is_closed,
};

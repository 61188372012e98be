//! Runs of the dual simplex by the least-index rule end (Bland 1977).
//!
//! Family: numbers. It stands on `algebra`, `rational`, `frac128` and `tableau`; `lp_bounds` and `existence` stand
//! on it.
//!
//! A run of `tableau` goes from dictionary to dictionary. The variables that are basic in one are its basis, which says
//! all: dictionaries of a program that have one basis have the same numbers (`bases_have_one_dictionary`). So a run that
//! came back to a basis could go round for ever. By the least-index rule it never does (`no_basis_comes_twice`).
//!
//! Suppose that it did. The value never falls, and it is the same in the end, so each pivot leaves it as it is, and each
//! variable that enters has the reduced cost 0. Of these variables take the greatest. It enters at one dictionary and leaves
//! at another, at whose point it is negative and no smaller one is. Now look at this point in the row that leaves
//! where the greatest enters. The row's constant is negative, and none of its terms is positive: the greatest one's
//! coefficient is positive and its value negative; each other variable that comes and goes is smaller, so its value isn't
//! negative, nor is its coefficient positive, since it would have entered instead; and the rest are 0. So the row's own
//! variable is negative, though it is smaller than the greatest: a contradiction.
//!
//! With v variables there are at most 2^v bases, so a run has fewer than 2^v pivots (`runs_are_short`). These laws are of
//! fractions of any size, whether they fit 128 bits or not.
//!
//! `solve_to_end` rests on them. It solves a program as `Lp::solve` of `tableau` does, with no limit on pivots, in rounds
//! of 1, 2, 4, .. up to 2^v of them, which are more than any run has. It never answers `Stopped`, and what `Lp::solve`
//! gives is `Stopped` or the same outcome (`ends_are_outcomes`).
#![tactic(auto)]

mod laws;
mod rounds;

pub use laws::{
    bases_have_one_dictionary, ends_are_outcomes, no_basis_comes_twice, runs_are_short,
};
pub use rounds::solve_to_end;

//! Split trees: branches of a certificate's tree, and the ranges that they leave.
//!
//! Family: proofs. It stands on `lin_rows`, whose `Bound` is one side of a branch, and on `certificate`,
//! whose trees it speaks of; the checker of certificates, their stream and the search stand on it.
//!
//! A branch splits the range of a quantity or a setup in two: its low side has the column at most a
//! number, and its high side at least the next one. The bounds on the way from the root to a node are its
//! path. `branch_range` gives what a path leaves of a column's range, which starts from 0 to the item's
//! largest total, or from 0 to 1 for a setup. `is_split` tells whether a branch splits what its path leaves
//! in two parts, neither of them empty.
//!
//! That a proof by a split tree looks at every plan is said by laws, which are contracts of functions that
//! do nothing: `plans_are_within`, `plans_lie_at_one_leaf`, `one_leaf_for_each`, `ranges_are_left`,
//! `leaves_are_open`, `trees_are_odd` and `bounds_are_met`.
#![tactic(auto)]

mod laws;
mod ranges;

pub use laws::{
    bounds_are_met, leaves_are_open, one_leaf_for_each, plans_are_within, plans_lie_at_one_leaf,
    ranges_are_left, trees_are_odd,
};
pub use ranges::{branch_range, is_split};

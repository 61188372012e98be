//! The root: what is said before any branch, by rounds of solving and separating.
//!
//! Family: search. It stands on `tableau`, `ls_cuts` and `lp_relaxation` for the rounds, on
//! `cert_checker`, which says what a leaf says, on `certificate`, whose text cuts and leaf go into, and
//! on `search_result` for the words of what is said; `branching` stands on it.
//!
//! `root` says to what the linear relaxation with all (l,S) inequalities closes. A round solves the
//! program of all rows and of the cuts so far, and looks at its least point for the most violated
//! inequality of each lead-free item and each last period; what is found are more cuts. Where nothing
//! is found the relaxation closes to the point's cost, rounded up. A `Root` has what is said, the cuts
//! that were found, and the leaf that proves it; both have lines in a certificate. Why neither a value
//! nor that there is no point was found is said too, by the run in exact fractions and the steps of the
//! separation.
#![tactic(auto)]

mod at_root;
mod round;
mod round_leaf;
mod separation;

pub use at_root::{MAX_ROUNDS, root};
pub use lp_relaxation::{MAX_CELLS, MAX_PIVOTS};
pub use round_leaf::Root;
pub use search_result::{PassedAt, RootSays};

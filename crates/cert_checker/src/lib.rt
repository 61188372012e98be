//! The checker of certificates: what a leaf says, the row of a cut, and whether a certificate is accepted.
//!
//! Family: proofs. It stands on `cert_meaning`, which says what all of it means, on `cert_trees` for the ranges that a
//! branch splits, on the cuts' crates for their rows, and on `plan_rules` for the plan that goes with an optimal
//! cost; the checker of certificates in files and the search stand on it.
//!
//! `check` is the call that the crate exists for: where it answers Ok, the claim of the certificate is true of all plans
//! of the instance, whoever wrote the certificate. It goes by `cut_row_in`, which gives the row of one cut, and by
//! `leaf_bound_in`, which says what one leaf says; a search uses both to try what it would write. They take what is
//! made once, the explosion for all cuts and `NamedSums` for all leaves; `cut_row` and `leaf_bound` are the same calls
//! for a caller with one cut or one leaf, for which they make it. `judge_claim` and `shortfall` are the other steps of
//! `check`. `echelon_for` gives the echelon over which the cuts of an item have their rows.
//!
//! Each refusal is a `Rejected`: the line of the certificate's text and `Why`. `specs/Leaves`, `specs/Cuts` and
//! `specs/Checks` say exactly when each comes and in which order. A certificate that is accepted and whose sums fit
//! numbers of 128 bits is never refused.
#![tactic(auto)]

mod checking;
mod claims;
mod columns;
mod cut;
mod cut_echelons;
mod cut_forms;
mod cut_rounding;
mod fault;
mod laws;
mod leaf;
mod leaf_point;
mod leaf_reduced;
mod leaf_sum;
mod named;
mod parts;
mod walk;

pub use cert_meaning::LeafSays;
pub use cert_trees::branch_range;
pub use checking::check;
pub use claims::{judge_claim, shortfall};
pub use cut::{cut_row, cut_row_in};
pub use cut_echelons::echelon_for;
pub use fault::{CheckFault, Rejected, Why};
pub use laws::{certified_is_not_refused, checks_are_one, good_is_not_faulty, lines_are_bytes};
pub use leaf::{leaf_bound, leaf_bound_in};
pub use lin_rows::Bound;
pub use named::NamedSums;

//! When a certificate is accepted, said over plain data, and why its claim is then true of all plans.
//!
//! Family: proofs. It stands on the linear model (`lin_rows`), the cuts (`round_cuts`, `echelon_rows`, `ls_cuts`,
//! `facility_form`, `backlog_dp`), the numbers of groups of items (`reduced_groups`, `reduced_leaf`), the certificates
//! (`cert_lines`, `certificate`) and `cert_trees`; the checker of certificates, the checker of their stream and the
//! search stand on it. It has no code that runs: a reader finds here what those programs mean.
//!
//! `specs/Named` has the rows that a part can name: those of the problem, of earlier cuts, and of the bounds on the
//! path from the root. `specs/Parts` has multiples of such rows and their sums, `specs/Lists` those that a list stands
//! for, `specs/Says` what a leaf says by linear duality, by Farkas' lemma, by one choice of quantities and setups or by
//! reduced costs, and `specs/CutRows` the row of each cut. With these, `specs/Accepts` says when a certificate is
//! accepted (`IsAccepted`), whether its sums fit numbers of 128 bits (`Fits`), and when its claim is true (`IsTrueOf`,
//! and `IsTrueWithin` of the plans within ranges). `LeafSays` is what a leaf says, as a program has it.
//!
//! Each law is the contract of a function that does nothing. `accepted_is_true` is the theorem that all of it is
//! for, and `accepted_over_ranges` says the same of the plans within ranges; they rest on `leaves_bound` and
//! `cuts_hold`. `says_are_one`, `cut_rows_are_one` and `echelon_rows_are_one` say that leaves and cuts mean one thing,
//! so that a program that finds it can also say when there is none; `acceptance_is_one`, that it doesn't matter
//! which largest totals and weights are taken, and `plain_is_linear`, that a leaf over reduced costs without groups is a
//! leaf by linear duality. `cut_rows_go_on` takes the rows of cuts one by one, as a loop does.
//! `worked_are_accepted` shows three certificates that are accepted.
#![tactic(auto)]

mod laws;
mod says;

pub use laws::{
    acceptance_is_one, accepted_is_true, accepted_over_ranges, cut_rows_are_one, cut_rows_go_on,
    cuts_hold, echelon_rows_are_one, leaves_bound, plain_is_linear, says_are_one,
    worked_are_accepted,
};
pub use says::LeafSays;

//! What a sum of multiples of rows and the numbers of groups of items bound.
//!
//! Family: single items. It stands on `lin_rows`, `must_start`, `late_starts` and `reduced_groups`; `cert_meaning` and
//! `cert_checker` stand on it.
//!
//! A sum of multiples of rows leaves of each column's cost its reduced cost. Where none is below 0, the right sides and
//! the numbers of groups of items that lie apart add to a *reduced sum*, which is at most `den` times the cost of every
//! feasible plan at which the rows hold (`reduced_sum_bounds`). A group without any choice refutes. `reduced_sum` finds
//! the sum from the columns' sums. What late items may fall short is charged on backlogs, by no more than their reduced
//! costs.
#![tactic(auto)]

mod charges;
mod floors;
mod laws;
mod prices;
mod sums;

pub use laws::{known_exists, reduced_by_both, reduced_sum_bounds, reduced_sums_are_one};
pub use sums::{ReducedFault, ReducedSum, reduced_sum};

//! The least cost of an item by itself: which period serves which net demands, and the potentials that
//! show that no net plan costs less.
//!
//! Family: single items. It stands on `lot_sizing` and `echelon`; `backlog_dp`, `uncoupled`, `item_bound` and
//! `heur_build` stand on it.
//!
//! `solve` is for items without backlog, the problem of Wagner and Whitin (1958). For each position, a
//! period with a net demand, it takes the least of lines, one for each period that may serve it
//! (Wagelmans, Van Hoesel and Kolen 1992). `solve_counted` is the same with its comparisons counted.
//! `solve_over_servers` serves items with backlog too: for each position it keeps for each period that may
//! serve it the cheapest last block that ends there. `laws::solve_plain` is that recursion under the
//! contract of `solve`, and `plain_least_cost` tries all blocks anew, both for comparison. Contracts say
//! what the definitions of `lot_sizing` say: the cost is that of some net plan, and no net plan costs less.
#![tactic(auto)]

mod cost_sums;
mod counting;
mod digits;
mod hull;
pub mod laws;
mod line_sums;
mod line_table;
mod lines;
mod plain;
mod server_blocks;
mod solving;
mod table;

pub use counting::{Steps, less_counted};
pub use echelon::{Block, Blocks, SingleItem};
pub use plain::plain_least_cost;
pub use server_blocks::last_potential;
pub use solving::{solve, solve_counted, solve_over_servers};

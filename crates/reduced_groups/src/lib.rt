//! Groups of items, and the numbers that their parts of the reduced costs can't fall below.
//!
//! Family: single items. It stands on `lin_rows`, `must_start`, `late_starts`, `quantity_dp` and `chain_dp`;
//! `reduced_leaf` stands on it.
//!
//! A sum of multiples of rows leaves of the costs a reduced cost of each column. Where none is below 0, linear
//! duality takes them for nothing. A *group* takes those of the setups and quantities of some items, and a recursion
//! finds a number that no feasible plan falls below with them. A late group lets its item fall short of what is on time,
//! at shares of the reduced costs of backlogs, one for each period; in whole quantities with largest lots too. Groups of
//! which no item is in two places, and whose shares charge no more than its reduced cost on any backlog, add their
//! numbers to the bound (`groups_bound`).
#![tactic(auto)]

mod apart;
mod chains;
mod floors;
mod given;
mod late;
mod laws;
mod levels;
mod needs;
mod prices;
mod quantities;

pub use apart::{GroupFault, find_group_fault, is_group};
pub use floors::{Floor, FloorFault, MAX_HORIZON, group_floor};
pub use laws::{groups_bound, numbers_are_one, reduced_costs_bound};
pub use prices::{GroupPrices, PriceFault, price_of};

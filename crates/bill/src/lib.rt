//! Bills of materials: which items are components of which, over any number of lines, and how much of
//! them goes into one unit.
//!
//! Family: models. It stands on `lot_sizing`; `lot_model`, `echelon`, `existence`, `cert_checker`, `lp_root`,
//! `answers_exist` and `lotplan` stand on it.
//!
//! `BillLines` lends the list of each item's components. `Ranking` gives each item a number above those
//! of the items that it goes into, or names the first item that is its own component. With ranks,
//! `Totals::of` gives each item's total and weights, or names the first item whose numbers are above
//! `MAX_TOTAL`. Both answers take no memory: `Ranking::of` and `Tables::of` take all that they need, and
//! can only run out of it. Contracts speak of the bill as `lot_sizing` defines it, by paths and equations
//! of any size of number.
#![tactic(auto)]

mod laws;
mod lines;
mod ranking;
mod reach;
mod totals;

pub use laws::totals_exist;
pub use lines::{BillLines, is_bill};
pub use lot_sizing::Need;
pub use ranking::{CycleFault, Ranking};
pub use totals::{BoundFault, Tables, Totals};

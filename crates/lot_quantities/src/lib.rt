//! What is made, from a table: quantities and setups by item and period, out of a CSV file with
//! any columns beside them.
//!
//! `read_quantities` gives the quantities and setups in the records of bytes, whose columns are
//! found by the names in the first record, or the first fault in the order of the file, by name
//! and place. `complete_or_judge` gives the feasible plan with given quantities and setups and the
//! least stocks and backlogs, or the first rule that is broken where no feasible plan has them.
//!
//! Family: plans. It stands on `plan_rules`, whose grids it fills and whose judge it asks, on
//! `csv_records` for the records of a text, on `plan_file` for their order, and on `existence` for
//! what can be decided; `lotplan` stands on it.
#![tactic(auto)]

mod columns;
mod completing;
mod fault;
mod laws;
mod quantities;
mod reading;
mod rows;

pub use columns::Columns;
pub use completing::complete_or_judge;
pub use fault::QuantityFault;
pub use laws::{tables_mean_one_thing, tables_mean_something};
pub use quantities::Quantities;
pub use reading::read_quantities;

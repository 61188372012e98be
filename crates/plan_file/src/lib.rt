//! Plan files: CSV with a header, and a record for each item and period.
//!
//! `write_plan` gives the text of a plan. `read_plan` gives the plan whose records bytes are, as
//! `csv` reads them, or the first fault in the order of the file, by name and place.
//!
//! Family: plans. It stands on `plan_rules`, whose `Plan` it writes and reads, on `csv_records`
//! for the records of a text, and on `itoa` for digits; `lot_schedule`, `lot_quantities`,
//! `existence`, `answers_exist`, `explain_plan` and `lotplan` stand on it.
#![tactic(auto)]

mod fault;
mod header;
mod laws;
mod limits;
mod reading;
mod writing;

pub use fault::{NumberField, PlanFault};
pub use laws::{plan_texts_are_short, records_mean_one_thing};
pub use limits::MAX_FILE;
pub use reading::read_plan;
pub use writing::write_plan;

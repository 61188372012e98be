//! Reports on a plan by period: a line of JSON for programs, and a table for a terminal.
//!
//! `full_line` gives all that a plan makes, keeps and owes of each item, what it costs and by which parts, and for each
//! resource the time that there is, that is used and that is free, as one line of JSON. `table_text` gives the lots, stocks,
//! backlogs, loads and free times as a text in columns. Both texts are defined by small functions, and the laws say that the
//! parts add up to the plan's cost, that each number stands in its place and that the columns are straight.
//!
//! Family: commands. It stands on `lot_sizing`, `lot_model` and `plan_rules` alone; `lotplan` prints both texts.
#![tactic(auto)]

mod figures;
mod full;
mod laws;
mod numbers;
mod padding;
mod parts;
mod tables;
mod widths;

pub use figures::Series;
pub use full::full_line;
pub use laws::{columns_are_straight, loads_are_shares, parts_add_up, rows_stand_in_the_texts};
pub use parts::Part;
pub use tables::table_text;

//! Pages: a plan drawn as HTML, with its costs, its loads, its items and what is proved of its cost.
//!
//! `page` gives the text of a page that stands alone: charts in SVG, tables of the same numbers, no script and nothing
//! from outside. Its text is defined by small functions, one for each mark, row and section. `rows_stand_in_the_page` is the
//! law that each number of a plan stands in the table of its item, and `shown_texts_are_plain`
//! the law that names and numbers bring no markup.
//!
//! Family: commands. It stands on `plan_rules`, and on `report` for what the parts of a cost are; nothing stands on it yet.
#![tactic(auto)]

mod cells;
mod chart;
mod costs;
mod fault;
mod framing;
mod items;
mod laws;
mod limits;
mod loads;
mod marks;
mod numbers;
mod pages;
mod peaks;
mod proving;
mod resources;
mod rows;
mod style;
mod totals;

pub use fault::PageFault;
pub use laws::{heights_fit, rows_stand_in_the_page, shown_texts_are_plain};
pub use limits::MAX_PAGE;
pub use pages::page;
pub use proving::Proved;

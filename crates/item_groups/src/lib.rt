//! Groups of items whose reduced costs are bounded together, as plain data.
//!
//! Family: single items. It stands on nothing. The lines of certificates name groups (`cert_lines`), and `reduced_groups`
//! says what the number of each is.
//!
//! A `Group` is an item, an item that may fall short of what is on time at a share of the costs of backlogs, an item in
//! whole quantities, which may fall short too or not, or a chain of two or three items, each of which goes into the
//! next one; a chain has a `ChainLink` for each, and what falls short has `Shares`, by period.
#![tactic(auto)]

mod group;
mod shares;

pub use group::{ChainLink, Group};
pub use shares::Shares;

//! The ranges of quantities and setups that a search is given, and those that its nodes have.
//!
//! `Ranges` have a least and a greatest number of each quantity and each setup, in grids: `Ranges::all` are the whole ones of an
//! instance, and `Ranges::are_of` tells whether ranges are ones of an instance. `is_within` and `lies_within` tell whether a plan
//! lies within ranges, and `lie_in_whole` says that each feasible plan lies within the whole ones.
//!
//! `listed` puts them in the one list with which a search begins: quantities first, then setups, item by item. Each node has
//! such a list of what its path leaves. `open_setup` and `first_place` give a place of it that leaves more than one number,
//! `column_of` tells which quantity or setup a place is of, and `least_grid` has the least numbers of all quantities, or of all
//! setups.
//!
//! Family: search. It stands on `tree_search`, whose nodes have such lists, on `plan_rules` for plans and grids, on
//! `cert_trees` and `cert_meaning`, by whose ranges certificates are judged, and on the columns of `lin_rows`; `incumbent`,
//! `node_branching` and `branching` stand on it.
#![tactic(auto)]

mod open;
mod places;
mod whole;
mod within;

pub use open::{first_place, open_setup};
pub use places::{column_of, least_grid, listed};
pub use whole::lie_in_whole;
pub use within::{Ranges, is_within, lies_within};

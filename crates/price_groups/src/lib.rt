//! Items that are planned together at prices: chains of items that go into each other, and items by what must have been started of them.
//!
//! `Grouping::of` tells which items of an instance are planned in which group, once for all prices: an item with lead times, or
//! one that goes into others, by what must have been started of it (`must_start`), with up to two components, so that one setup of
//! a part serves several lots of what it goes into. An item that may be late, or that goes into such an item, is planned by what is on
//! time of it (`late_starts`), of which it may fall short, or left to be planned alone with what is owed where none of these has a lead
//! time. `MovedCosts` are what setups and units cost where the price of
//! stock is moved to the units that are stocked. `write_level` writes an item of a group as a level of `price_chains`.
//!
//! Family: plugins. It stands on `lot_model`, on `must_start` and `late_starts`, on `item_groups`, whose groups certificates name, on `node_setups` for what a
//! path says of setups, and on `integer_grids`; `price_items` and `price_rounds` stand on it.
//!
//! Nothing is claimed of what groups cost. What is proved is that the calls are safe and return.
#![tactic(auto)]

mod asked;
mod components;
mod cover;
mod grouping;
mod groups;
mod levels;
mod lots;
mod moved;
mod weights;

pub use components::{arrival_of, components_of};
pub use grouping::Grouping;
pub use groups::ItemGroup;
pub use levels::{Place, write_level};
pub use moved::{MovedCosts, RowPrices, most_by_setup};

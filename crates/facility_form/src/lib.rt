//! The facility location form of an item by itself, and the price rows that it gives.
//!
//! Family: cuts. It stands on `lot_sizing`, `echelon`, `lin_rows`, `valid_inequalities` and `echelon_rows`; `cert_meaning`,
//! `answers_exist` and the checker of certificates, which makes price rows of a certificate's prices, stand on it.
//!
//! `assign` lays what is made and what is asked for along the same line, in the order of time; what lies over each
//! other is made for each other (`served`). So what is made first serves what is asked for first, and where as much
//! is made in all as is asked for, each net demand is served whole.
//!
//! `price_row` makes the row of an echelon for a price of each period's net demand and prices of units, stocks and
//! backlogs. It is a projection of the facility location form: a setup counts as much as it can gain by the prices.
#![tactic(auto)]

mod assignment;
mod gains;
mod laws;
mod price_rows;

pub use assignment::{Assignment, assign};
pub use laws::price_rows_hold;
pub use price_rows::price_row;

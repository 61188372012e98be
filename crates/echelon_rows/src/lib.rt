//! What the rows of all cuts of an echelon share.
//!
//! Family: cuts. It stands on `algebra`, `lot_sizing`, `echelon`, `lin_rows` and `valid_inequalities`; `ls_cuts`,
//! `facility_form` and `backlog_dp`, the proofs (`cert_meaning`, `cert_checker`) and the search stand on it.
//!
//! A cut is a row over the columns of the linear model that is made from an `EchelonItem` alone, and that holds at
//! every feasible plan of any problem whose lead-free item has this echelon (`specs/Plans`). `specs/Rows` has the
//! echelon as rows see it: its stock and its backlog are sums over columns, with which it goes a way through the
//! periods (`echelons_go`); so each inequality of `valid_inequalities` is a row.
//!
//! Rows are put together from lists by `push_units`, `push_setups`, `push_stocks` and `push_backlogs`, in this order.
//! `cost_terms_of` does so for what plans cost by the prices of a cut, `worth_of` and `held_of` give the parts of its
//! right side, and `serving_prices` what a unit costs that one period makes for each other. Such a row holds where
//! the inequality does (`cost_rows_hold`). `limits` has the largest price and the largest potential,
//! of which `are_prices` and `are_steps` are the tests.
#![tactic(auto)]

mod costs;
mod laws;
pub mod limits;
mod serving;
mod terms;

pub use costs::{are_prices, are_steps, cost_terms_of, held_of, worth_of};
pub use laws::{cost_rows_hold, cost_terms_are_terms, echelons_go, nets_are_small, priced_is_net};
pub use serving::serving_prices;
pub use terms::{push_backlogs, push_setups, push_stocks, push_units};

//! What each item costs at least by itself, with a cut of each item that proves it.
//!
//! Family: search. It stands on `echelon`, which says what is asked of an item and of all items
//! that it goes into, on `backlog_dp`, which solves an item by itself, and on `cert_meaning` and
//! `cert_checker`, which say what a cut and a leaf have to be. `branching` stands on it: the
//! search of coupled models begins with its leaf.
//!
//! The item apart serves the net demand of its echelon at the item's own costs; holding and owing
//! cost something only where the item goes into no other one, so that nothing is counted twice. A
//! cheapest net plan of each lead-free item, and the holding of what is left of opening stocks, add
//! to an amount that no feasible plan costs less than (`IsApart` in `specs/Apart`). `apart` gives
//! it with the block cuts that prove it, and `apart_leaf` the leaf that takes each of them once.
//!
//! `apart_is_one` is a law, the contract of a function that does nothing.
#![tactic(auto)]

mod bound;
mod found;
mod item;
mod laws;

pub use bound::{apart, apart_leaf};
pub use found::Apart;
pub use laws::apart_is_one;

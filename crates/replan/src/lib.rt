//! Planning on from a frozen start.
//!
//! Family: search. It stands on `frozen_start`, which says when a start stands, what it costs and what the later
//! periods are, on `lot_draft` and `lot_model`, which make an instance of them, on `plan_rules`, and on
//! `branching` and `search_plugins`, which search it. No plugin is below it.
//!
//! `rest` gives the instance of the later periods after a start that stands, with what the start costs, or says why
//! there is none. `replan` does so and searches that instance: a `Replanned` has both. `total` is what is claimed of all
//! plans of the whole that agree with the start.
//!
//! A plan of the later periods goes behind the start by `join` of `frozen_start`: its laws say that the cheapest plan of
//! the rest makes the cheapest of all plans that agree with the start.
#![tactic(auto)]

mod drafting;
mod fault;
mod found;
mod going_on;
mod laws;
mod lines;
mod planned;
mod planning;

pub use fault::RestFault;
pub use found::Rest;
pub use going_on::rest;
pub use laws::caps_change_nothing;
pub use planned::Replanned;
pub use planning::{replan, total};

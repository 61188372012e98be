//! Prices as a plugin of the search: leaves by rounds of prices of capacity and of stock, and branches on the setups that the
//! rounds are least sure of.
//!
//! `Prices` is a `Proposer` of `search_plugins`. Its state, `Pricings`, has what prices of the model are made with and the notes
//! of nodes; its work at a node, `Round`, the rounds there; its hint to who proposes plans is the `Average` over the rounds.
//!
//! Family: plugins. It stands on `search_plugins`, whose trait it implements, on `price_leaves` for prices, rounds and the leaves
//! of them, on `node_branching` for notes and branches, and on `work_clock` for the time; `lotplan_main` names it, and nothing of the search stands on it.
#![tactic(auto)]

mod prices;

pub use prices::{Prices, Pricings, Round};

//! The search of every model: branching on quantities and setups, with cuts, and a certificate of what is found.
//!
//! `search_all` searches the plans of a model, and `search` those within `Ranges` that are given. Each gives a `Found`: a plan,
//! if there is one, and a certificate of what is claimed. Both are given what proposes leaves, branches and plans (`Plugins`), and
//! what is told of the search and may end it (`search_plugins`); what they promise holds for any. `Wanted` has the budget, a plan to
//! begin with, the newest version that the certificate may have, and the `Limits`, which say where a search may end though its plan
//! isn't shown to be best.
//!
//! Family: search. It stands on `tree_search` for the tree, on `node_domains` for the ranges, on `lp_root`, `item_bound` and
//! `lp_bounds` for cuts and leaves, on `incumbent` for the best plan, on `search_plugins` for what is plugged in, on
//! `uncoupled` for uncoupled models, and on `leaf_growth`, `cert_checker` and `cert_meaning` for what certificates are; `lotplan`
//! stands on it. No plugin is below it.
#![tactic(auto)]

mod adding;
mod asking;
mod beginning;
mod finishing;
mod guiding;
mod impossible;
mod judging;
mod knowing;
mod plugged;
mod pointing;
mod pricing;
mod searching;
mod splitting;
mod versions;
mod wanted;
mod whole;

pub use lp_root::{Root, root};
pub use node_domains::Ranges;
pub use plugged::Plugins;
pub use search_result::{Found, PassedAt, RootSays};
pub use searching::{search, search_all};
pub use tree_search::Limits;
pub use wanted::Wanted;

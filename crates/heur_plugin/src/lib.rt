//! Plans as a plugin of the search: those that are made without a search, by walks over the lots of items, by linear programs with
//! given setups, and with the setups that rounds of prices want.
//!
//! `Plans` is a `Heuristic` of `search_plugins`, whose hint is the average over rounds of prices. Its state, an `Effort`, has what
//! finding plans may still take and what was tried.
//!
//! Family: plugins. It stands on `search_plugins`, whose trait it implements, on `first_plans`, `heur_lags`, `heur_build`,
//! `heur_setup_lps` and `heur_setup_walks`, which make plans, on `price_rounds` for averages, on `work_clock` for the time, and on `incumbent`, which keeps the best plan; `lotplan_main` names it, and
//! nothing of the search stands on it.
#![tactic(auto)]

mod effort;
mod lagging;
mod plans;
mod programs;
mod scope;
mod setup_walking;
mod shares;
mod starting;
mod trying;

pub use effort::Effort;
pub use plans::Plans;

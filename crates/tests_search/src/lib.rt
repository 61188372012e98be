//! Tests of the crates of search: first plans, plans by given setups, searches, leaves of prices and the root, with certificates
//! that are read again and checked; and of the models that `report` draws, whose items `wagner_whitin` plans.
//!
//! Family: tests. It stands on `own_plan`, `heur_build`, `first_plans`, `heur_lags`, `report`, `tree_search`, `heur_setup_lps`, `heur_setup_walks`,
//! `price_leaves`, `uncoupled`, `lp_root` and `branching` with its plugins (`search_plugins`, `price_plugin`, `heur_plugin`), and calls them
//! as any other crate does; nothing stands on it.
//!
//! Each crate that is tested has files of its own. The crate `fixtures` has what they make their instances of. `weak` is a guide
//! of `tree_search` that shows nothing before a point is reached.
#![tactic(auto)]

#[cfg(test)]
mod branching_tests;
#[cfg(test)]
mod first_plans_tests;
#[cfg(test)]
mod heur_lags_tests;
#[cfg(test)]
mod heur_setup_lps_tests;
#[cfg(test)]
mod heur_setup_walks_tests;
#[cfg(test)]
mod lp_root_tests;
#[cfg(test)]
mod price_leaves_tests;
#[cfg(test)]
mod report_generating_tests;
#[cfg(test)]
mod tree_search_tests;
#[cfg(test)]
mod uncoupled_certificate_tests;
#[cfg(test)]
mod weak;

//! Tests of the crates of plans, of certificates with their checker, and of bounds: the judge, plan files, models that are written,
//! certificates as texts and what the checker says of them, bounds and uncoupled instances.
//!
//! Family: tests. It stands on `plan_rules`, `plan_file`, `instance_reader`, `cert_lines`, `certificate`, `cert_trees`,
//! `cert_checker`, `cert_stream`, `stream_check`, `lp_relaxation`, `lp_bounds`, `item_bound` and `uncoupled`, and calls
//! them as any other crate does; nothing stands on it.
//!
//! Each crate that is tested has files of its own. The crate `fixtures` has what they make their instances of, and `shops` the
//! models and the plan that several of them have in common.
#![tactic(auto)]

#[cfg(test)]
mod cert_checker_cut_tests;
#[cfg(test)]
mod cert_checker_leaf_tests;
#[cfg(test)]
mod cert_lines_tests;
#[cfg(test)]
mod cert_stream_tests;
#[cfg(test)]
mod cert_trees_tests;
#[cfg(test)]
mod certificate_reading_tests;
#[cfg(test)]
mod certificate_tests;
#[cfg(test)]
mod instance_reader_tests;
#[cfg(test)]
mod item_bound_tests;
#[cfg(test)]
mod lp_base_tests;
#[cfg(test)]
mod lp_path_tests;
#[cfg(test)]
mod lp_rows_tests;
#[cfg(test)]
mod plan_file_tests;
#[cfg(test)]
mod plan_rules_tests;
#[cfg(test)]
mod shops;
#[cfg(test)]
mod stream_check_tests;
#[cfg(test)]
mod uncoupled_tests;

//! Tests of the crates of what lies outside, of numbers and of models: whole numbers in texts, files and output in memory, the
//! arithmetic of fractions, linear programs, bills of materials, drafts and instances.
//!
//! Family: tests. It stands on `whole_numbers`, `lot_io`, `frac128`, `tableau`, `least_index`, `bill`, `lot_draft` and
//! `lot_model`, and calls them as any other crate does; nothing stands on it.
//!
//! Each crate that is tested has files of its own. The crate `fixtures` has what they make their instances of, and `programs`
//! what those on runs have in common.
#![tactic(auto)]

#[cfg(test)]
mod bill_tests;
#[cfg(test)]
mod frac128_tests;
#[cfg(test)]
mod least_index_tests;
#[cfg(test)]
mod lot_draft_tests;
#[cfg(test)]
mod lot_io_tests;
#[cfg(test)]
mod lot_model_tests;
#[cfg(test)]
mod programs;
#[cfg(test)]
mod tableau_tests;
#[cfg(test)]
mod whole_numbers_tests;

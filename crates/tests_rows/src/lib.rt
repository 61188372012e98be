//! Tests of the crates of rows, of single items and of cuts: the rows of the linear model, echelons, the recursion of single
//! items, the rows of cuts and their separation.
//!
//! Family: tests. It stands on `lin_rows`, `echelon`, `wagner_whitin`, `round_cuts`, `echelon_rows`, `ls_cuts`, `facility_form` and
//! `backlog_dp`, and calls them as any other crate does; nothing stands on it.
//!
//! Each crate that is tested has files of its own. The crate `fixtures` has what they make their instances of, and
//! `samples` what several of them have in common.
#![tactic(auto)]

#[cfg(test)]
mod backlog_dp_tests;
#[cfg(test)]
mod echelon_rows_tests;
#[cfg(test)]
mod echelon_tests;
#[cfg(test)]
mod facility_form_tests;
#[cfg(test)]
mod lin_rows_tests;
#[cfg(test)]
mod ls_cuts_tests;
#[cfg(test)]
mod round_cuts_tests;
#[cfg(test)]
mod samples;
#[cfg(test)]
mod wagner_whitin_tests;

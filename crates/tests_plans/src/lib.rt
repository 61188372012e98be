//! Tests of `lot_schedule` and `pegging`: lots as times on resources, and which supply serves which need.
//!
//! Family: tests. It stands on `lot_schedule` and `pegging`, and calls them as any other crate does; nothing stands on it. The crate
//! `fixtures` has what it makes its instances of.
//!
//! `plain_schedules` and `plain_pegs` say what schedules and pegs are by their definitions alone: each slot beside each other, each
//! order of lots, each supply beside each need. `random_plans` draws the plans of which both are asked.
#![tactic(auto)]

#[cfg(test)]
mod pegging_tests;
#[cfg(test)]
mod plain_pegs;
#[cfg(test)]
mod plain_schedules;
#[cfg(test)]
mod random_plans;
#[cfg(test)]
mod random_tests;
#[cfg(test)]
mod schedule_tests;

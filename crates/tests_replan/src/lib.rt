//! Tests of `replan`: starts that are kept, and what they leave.
//!
//! Family: tests. It stands on `replan`, and calls it as any other crate does; nothing stands on it. The crate `fixtures` has
//! what it makes its instances of.
#![tactic(auto)]

#[cfg(test)]
mod replan_tests;

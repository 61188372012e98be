//! What a search finds, and when that is proved.
//!
//! A `Found` has a certificate, the plan that goes with it, what was said at the root (`RootSays`; `PassedAt` is where a number
//! didn't fit 128 bits), and the number of nodes. `IsProved` (`specs/Found`) says when its certificate is accepted with the plan
//! and its claim true.
//!
//! Family: search. It stands on `certificate` and `plan_rules`, and in its definitions on `cert_meaning` and `cert_checker`;
//! `uncoupled`, `lp_root`, `branching`, `replan` and `lotplan` stand on it.
#![tactic(auto)]

mod found;

pub use found::{Found, PassedAt, RootSays};

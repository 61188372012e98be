//! Leaves of certificates while a search goes on: laws alone, and no code that runs.
//!
//! Family: search. It stands on `cert_meaning` and `cert_checker`, which say what a leaf says, and on `certificate`,
//! which says what a text has to be; `branching` stands on it.
//!
//! A leaf takes rows by their names. Cuts and the bounds of a path are counted, and more of them follow those that
//! are there; so what a leaf says at a node it says with more cuts and at each node below, where it takes no single
//! choice of quantities and setups (`leaves_go_on`, `leaves_stay`). It says a small amount (`amounts_are_small`).
//!
//! A certificate has a text where its cuts and leaves have lines and its tree is a split tree (`made_is_writable`), with few
//! lines for each node (`few_lines`).
#![tactic(auto)]

mod laws;
mod limits;

pub use laws::{amounts_are_small, few_lines, leaves_go_on, leaves_stay, made_is_writable};
pub use limits::MAX_NODES;

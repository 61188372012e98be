//! Inequalities that hold of every plan of an echelon, in its own quantities.
//!
//! Family: single items. It stands on `lot_sizing` and `echelon`; the crates of the cuts of echelons,
//! `cert_meaning`, `lp_relaxation`, `item_bound` and `uncoupled` stand on it.
//!
//! `specs/Trajectory` says how an echelon goes through the periods: quantities and setups of its item,
//! and what it has in stock and owes. It knows no model, bill or lead time; whoever shows that an
//! echelon of a plan goes so has all that follows. `specs/Inequalities` has three inequalities: the (l,S)
//! inequality of Barany, Van Roy and Wolsey (1984) with backlogs added, the price inequality, which is a
//! projection of the facility location form, and the block inequality, which says that potentials end
//! below what any plan costs (both after Pochet and Wolsey, "Production Planning by Mixed Integer
//! Programming").
//!
//! The crate has no code that runs. Each law is the contract of a function that does nothing:
//! `plans_net` says that quantities and setups are a net plan, `ls_holds`, `price_holds` and
//! `block_holds` that the inequalities hold.
#![tactic(auto)]

mod laws;

pub use laws::{block_holds, ls_holds, plans_net, price_holds};

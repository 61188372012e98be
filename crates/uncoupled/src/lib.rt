//! Best plans of uncoupled instances, made item by item, and the certificates that prove them.
//!
//! Where no item takes time on a resource, goes into another, or has a lead time or bounds on its lots,
//! each is planned by itself. `plan_items` answers `PlannedItems`: a best plan, or the first item that has
//! no room in the end for what is left of its opening stock, so that no plan is feasible.
//!
//! `backlog_dp` gives an item's cheapest blocks: which period serves which net demands. Their lots and
//! setups are the item's, and `plan_rules::complete_at_cost` gives all stocks, all backlogs and the cost.
//! The recursion's potentials are handed on with the plan: `ItemPlans` has them for each item, beside the
//! item's own costs. The last potential and the holding of what is left of the opening stock is a floor
//! under what the item costs in any plan, and these floors add to what the plan costs; so the lists prove
//! by themselves that the plan is best (`specs/Items`). The laws of `lot_sizing` say that no plan costs
//! less, and that there is a plan exactly where all items have room.
//!
//! `plan_uncoupled` gives the plan as a `Found` of `search_result`: its certificate has a block cut of each item and one
//! leaf, which takes each cut once and says the plan's cost; or, where an item has no room for what is left of its opening
//! stock, a leaf by Farkas' lemma. `block_leaves_are_certified` and `no_room_is_certified` are the laws that these two
//! certificates are accepted.
//!
//! Family: search. It stands on `plan_rules`, `backlog_dp` and `search_result`, and on `cert_meaning` and `cert_checker`, which
//! say what a certificate has to be; `branching` stands on it.
#![tactic(auto)]

mod blocks;
mod laws;
mod lots;
mod no_room;
mod planning;
mod room;
mod uncoupled_plans;

pub use laws::{block_leaves_are_certified, echelons_are_items};
pub use lin_rows::Potentials;
pub use no_room::no_room_is_certified;
pub use plan_rules::Plan;
pub use planning::{ItemPlans, PlannedItems, plan_items};
pub use uncoupled_plans::plan_uncoupled;

//! The terms in which the planner's contracts speak.
//!
//! Family: words. It stands on nothing, and every crate that speaks of problems stands on it.
//!
//! A problem is the multi-item, multi-level, capacitated lot-sizing problem with setups, backlogging,
//! lead times and bounds on lots in big time buckets, as Pochet and Wolsey model it in "Production
//! Planning by Mixed Integer Programming". `specs/` has what a problem is and its limits (`Problem`),
//! what a plan is, when it is feasible and what it costs (`Plan`), what holds of all feasible plans
//! (`Best`), how much of an item any of them makes (`Totals`), the stocks and backlogs that go with
//! quantities (`Least`), an item by itself with its net plans, blocks and potentials (`Single`), how
//! it comes from a problem (`Net`), the bill of materials (`Bill`), echelon stocks (`Echelon`), and
//! the texts that the program writes (`Texts`). `limits` has each limit under its name. `proofs/` has
//! laws about these; those that stand by themselves are contracts of functions that do nothing.
//!
//! Items, resources and periods are counted from 1. All numbers of the definitions are whole and of
//! any size.
#![tactic(auto)]

mod laws;
pub mod limits;

pub use laws::{
    blocks_serve, costs_apart, echelons_balance, items_are_best_apart, last_potential_is_floor,
    least_stocks_are_best, net_is_within_totals, room_decides, totals_are_bounded, totals_are_one,
    weights_are_one,
};

/// A component, and how many units of it go into one unit of the item.
#[derive(Clone, Copy, Debug, PartialEq, Eq)]
pub struct Need {
    /// The component's number.
    pub item: u32,
    /// Units of the component in one unit of the item.
    pub quantity: u64,
}

/// A resource, and the time that the item takes on it.
#[derive(Clone, Copy, Debug, PartialEq, Eq)]
pub struct Usage {
    /// The resource's number.
    pub resource: u32,
    /// Time of one unit, in time units of the resource.
    pub unit: u64,
    /// Time of a setup, in time units of the resource.
    pub setup: u64,
}

/// Positions, which are the periods with a net demand in order, that one period serves.
#[derive(Clone, Copy, Debug, PartialEq, Eq)]
pub struct Block {
    /// The first position served.
    pub first: u32,
    /// The last position served.
    pub last: u32,
    /// The period in which the quantity is made.
    pub server: u32,
}

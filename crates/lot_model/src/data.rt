// One item and one resource of a problem.

use lot_sizing::{Need, Usage};
use std::marker::Model;

/// An item with its lists, an entry for each period.
#[derive(Drop)]
pub struct ItemData {
    pub name: String,
    pub demand: Vec<u64>,
    pub unit_cost: Vec<u64>,
    pub setup_cost: Vec<u64>,
    pub hold_cost: Vec<u64>,
    pub backlog_cost: Option<Vec<u64>>,
    pub opening: u64,
    pub end_min: u64,
    pub end_max: u64,
    pub lead: u64,
    pub min_lot: u64,
    pub max_lot: Option<u64>,
    pub needs: Vec<Need>,
    pub uses: Vec<Usage>,
}

impl Model for ItemData {
    ghost use Rattle.std.specs.Prelude.{option_map, string_bytes};
    ghost use Rattle.lot_sizing.specs.Problem.{Item};

    ghost Value = { Item };

    ghost view = { λ a. record { name = string_bytes a.name; demand = a.demand.items; unit_cost = a.unit_cost.items; setup_cost = a.setup_cost.items; hold_cost = a.hold_cost.items; backlog_cost = option_map (λ v. v.items) a.backlog_cost; opening = a.opening; end_min = a.end_min; end_max = a.end_max; lead = a.lead; min_lot = a.min_lot; max_lot = a.max_lot; needs = a.needs.items; uses = a.uses.items } };
}

/// A resource with its time in each period.
#[derive(Drop)]
pub struct ResourceData {
    pub name: String,
    pub capacity: Vec<u64>,
}

impl Model for ResourceData {
    ghost use Rattle.std.specs.Prelude.{string_bytes};
    ghost use Rattle.lot_sizing.specs.Problem.{Resource};

    ghost Value = { Resource };

    ghost view = { λ a. record { name = string_bytes a.name; capacity = a.capacity.items } };
}

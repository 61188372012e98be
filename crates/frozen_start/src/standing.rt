// Whether the start of a plan stands.
ghost use Rattle.std.specs.Prelude.{◌≡◌, ◌≤◌, ◌↔◌, IsTrue};
ghost use Rattle.lot_sizing.specs.Problem.{item_count, resource_count};
ghost use Rattle.lot_sizing.specs.Plan.{Each, IsLot, IsMadeWithSetup, IsSetup, IsWithinCapacity, time_used};
ghost use Rattle.plan_rules.specs.Cells.{Fits, table_of};
ghost use Rattle.plan_rules.specs.Held.{most_time};
ghost use Rattle.plan_rules.specs.Order.{HoldsInRow};
ghost use Rattle.frozen_start.specs.Starts.{StartStands};
ghost use Rattle.frozen_start.specs.Held.{AreFlows, CellStands, start_of};

use crate::Flows;
use lot_model::{Instance, an_instance_breaks_no_rule};
use plan_rules::Grid;

// Whether an item is made with a setup in a period, and in a lot that is allowed.
fn may_be_made(instance: &Instance, make: &Grid, setup: &Grid, item: u32, period: u32) -> bool
    requires make { Fits instance.now make.now }
    requires setup { Fits instance.now setup.now }
    requires item_low { 1 ≤ item }
    requires item_high { item ≤ item_count instance.now }
    requires low { 1 ≤ period }
    requires high { period ≤ instance.now.periods }
    ensures { let p = start_of make.now setup.now in IsTrue result ↔ IsSetup p item period
        × IsMadeWithSetup p item period × IsLot instance.now p item period }
{
    let made = make.get(item, period);
    let set = setup.get(item, period);
    if set > 1 || (made > 0 && set == 0) {
        return false;
    }
    if set == 1 && instance.min_lot(item) > made {
        return false;
    }
    match instance.max_lot(item) {
        Some(most) => made <= most,
        None => true,
    }
}

// Whether an item in a period is as in a start that stands.
fn cell_stands(
    instance: &Instance,
    make: &Grid,
    setup: &Grid,
    item: u32,
    period: u32,
    flows: Flows,
) -> bool
    requires make { Fits instance.now make.now }
    requires setup { Fits instance.now setup.now }
    requires item_low { 1 ≤ item }
    requires item_high { item ≤ item_count instance.now }
    requires low { 1 ≤ period }
    requires high { period ≤ instance.now.periods }
    requires flows { AreFlows instance.now (table_of make.now) item period flows }
    ensures { IsTrue result ↔ CellStands instance.now (start_of make.now setup.now) item period }
{
    let in_time = instance.has_backlog_cost(item) || flows.outflow <= flows.supply;
    in_time && may_be_made(instance, make, setup, item, period)
}

// Whether an item is as in a start that stands.
fn item_stands(instance: &Instance, make: &Grid, setup: &Grid, item: u32, first: u32) -> bool
    requires make { Fits instance.now make.now }
    requires setup { Fits instance.now setup.now }
    requires low { 1 ≤ item }
    requires high { item ≤ item_count instance.now }
    requires inside { first ≤ instance.now.periods }
    ensures { IsTrue result ↔ HoldsInRow first
        (CellStands instance.now (start_of make.now setup.now)) item }
{
    an_instance_breaks_no_rule(instance);
    let mut flows = Flows::before(instance, item);
    for period in 1..first + 1 {
        flows = flows.next(instance, make, item, period);
        if !cell_stands(instance, make, setup, item, period, flows) {
            return false;
        }
    }
    true
}

// Whether all items are as in a start that stands.
fn items_stand(instance: &Instance, make: &Grid, setup: &Grid, first: u32) -> bool
    requires make { Fits instance.now make.now }
    requires setup { Fits instance.now setup.now }
    requires inside { first ≤ instance.now.periods }
    ensures { IsTrue result ↔ Each (item_count instance.now) first
        (CellStands instance.now (start_of make.now setup.now)) }
{
    for item in 1..instance.items() + 1 {
        if !item_stands(instance, make, setup, item, first) {
            return false;
        }
    }
    true
}

// The time that a resource is used in a period.
#[tactic(auto, using(lot_sizing::proofs::Sums::sum_to_more))]
fn time_of(instance: &Instance, make: &Grid, setup: &Grid, resource: u32, period: u32) -> u128
    requires make { Fits instance.now make.now }
    requires setup { Fits instance.now setup.now }
    requires low { 1 ≤ period }
    requires high { period ≤ instance.now.periods }
    ensures value { result ≡ time_used instance.now (start_of make.now setup.now) resource period }
    ensures small { result ≤ most_time }
{
    let mut total = 0u128;
    for item in 1..instance.items() + 1 {
        total += instance.unit_time(item, resource) as u128 * make.get(item, period) as u128
            + instance.setup_time(item, resource) as u128 * setup.get(item, period) as u128;
    }
    total
}

// Whether all resources have the time that a start takes.
fn times_suffice(instance: &Instance, make: &Grid, setup: &Grid, first: u32) -> bool
    requires make { Fits instance.now make.now }
    requires setup { Fits instance.now setup.now }
    requires inside { first ≤ instance.now.periods }
    ensures { IsTrue result ↔ Each (resource_count instance.now) first
        (IsWithinCapacity instance.now (start_of make.now setup.now)) }
{
    for resource in 1..instance.resources() + 1 {
        for period in 1..first + 1 {
            let used = time_of(instance, make, setup, resource, period);
            if used > instance.capacity(resource, period) as u128 {
                return false;
            }
        }
    }
    true
}

/// Whether the first periods of a plan can be kept: setups, times and lots are allowed there, and nothing is owed of
/// an item that may not be late. Of the plan it takes the quantities and setups.
///
/// It takes time in the number of items times periods times lines of the bill and of resources.
pub fn start_stands(instance: &Instance, make: &Grid, setup: &Grid, first: u32) -> bool
    requires make { Fits instance.now make.now }
    requires setup { Fits instance.now setup.now }
    requires inside { first ≤ instance.now.periods }
    ensures { IsTrue result ↔ StartStands instance.now (start_of make.now setup.now) first }
{
    items_stand(instance, make, setup, first) && times_suffice(instance, make, setup, first)
}

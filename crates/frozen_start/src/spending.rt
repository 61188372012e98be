// What the start of a plan costs.
ghost use Rattle.std.specs.Prelude.{◌≡◌, ◌≤◌, ◌<◌, ◌*◌, ◌^◌};
ghost use Rattle.lot_sizing.specs.declared.limits.TheConstants.{MAX_AMOUNT, MAX_PERIODS};
ghost use Rattle.lot_sizing.specs.Problem.{backlog_cost, item_count};
ghost use Rattle.lot_sizing.specs.Sums.{sum_to};
ghost use Rattle.lot_sizing.specs.Plan.{cost_at};
ghost use Rattle.lot_sizing.specs.Least.{least_backlog, least_plan};
ghost use Rattle.plan_rules.specs.Cells.{Fits, table_of};
ghost use Rattle.frozen_start.specs.Starts.{spent};
ghost use Rattle.frozen_start.specs.Held.{AreFlows, most_start_cost, start_of};

use crate::Flows;
use lot_model::{Instance, an_instance_breaks_no_rule};
use plan_rules::Grid;

// What the least backlog of an item costs in a period. Only an item that goes into no other has a price for it, so
// what was asked of it is its demand alone: hence the product fits.
fn owed_cost(instance: &Instance, make: &Grid, item: u32, period: u32, flows: Flows) -> u128
    requires make { Fits instance.now make.now }
    requires item_low { 1 ≤ item }
    requires item_high { item ≤ item_count instance.now }
    requires low { 1 ≤ period }
    requires high { period ≤ instance.now.periods }
    requires flows { AreFlows instance.now (table_of make.now) item period flows }
    ensures value { result ≡ backlog_cost instance.now item period
        * least_backlog instance.now (table_of make.now) item period }
    ensures small { result ≤ MAX_AMOUNT * (MAX_PERIODS * MAX_AMOUNT) }
{
    an_instance_breaks_no_rule(instance);
    match instance.backlog_cost(item, period) {
        Some(price) => price as u128 * flows.backlog(),
        None => 0,
    }
}

// What an item costs in a period of the start.
fn cost_in(
    instance: &Instance,
    make: &Grid,
    setup: &Grid,
    item: u32,
    period: u32,
    flows: Flows,
) -> u128
    requires make { Fits instance.now make.now }
    requires setup { Fits instance.now setup.now }
    requires item_low { 1 ≤ item }
    requires item_high { item ≤ item_count instance.now }
    requires low { 1 ≤ period }
    requires high { period ≤ instance.now.periods }
    requires flows { AreFlows instance.now (table_of make.now) item period flows }
    ensures value { result ≡ cost_at instance.now
        (least_plan instance.now (table_of make.now) (table_of setup.now)) item period }
    ensures small { result ≤ most_start_cost }
{
    an_instance_breaks_no_rule(instance);
    instance.unit_cost(item, period) as u128 * make.get(item, period) as u128
        + instance.setup_cost(item, period) as u128 * setup.get(item, period) as u128
        + instance.hold_cost(item, period) as u128 * flows.stock()
        + owed_cost(instance, make, item, period, flows)
}

// What an item costs in the start.
#[tactic(auto, using(lot_sizing::proofs::Sums::sum_to_more))]
fn item_spent(instance: &Instance, make: &Grid, setup: &Grid, item: u32, first: u32) -> u128
    requires make { Fits instance.now make.now }
    requires setup { Fits instance.now setup.now }
    requires item_low { 1 ≤ item }
    requires item_high { item ≤ item_count instance.now }
    requires inside { first ≤ instance.now.periods }
    ensures value { result ≡ sum_to first
        (λ t. cost_at instance.now
        (least_plan instance.now (table_of make.now) (table_of setup.now)) item t) }
    ensures small { result ≤ MAX_PERIODS * most_start_cost }
{
    an_instance_breaks_no_rule(instance);
    let mut total = 0u128;
    let mut flows = Flows::before(instance, item);
    for period in 1..first + 1 {
        flows = flows.next(instance, make, item, period);
        total += cost_in(instance, make, setup, item, period, flows);
    }
    total
}

/// What the first periods of a plan cost with the least stocks and backlogs, in money. Of the plan it takes the
/// quantities and setups.
///
/// It takes time in the number of items times periods times lines of the bill.
#[tactic(auto, using(lot_sizing::proofs::Sums::sum_to_more))]
pub fn spent(instance: &Instance, make: &Grid, setup: &Grid, first: u32) -> u128
    requires make { Fits instance.now make.now }
    requires setup { Fits instance.now setup.now }
    requires inside { first ≤ instance.now.periods }
    ensures value { result ≡ spent instance.now (start_of make.now setup.now) first }
    ensures small { result < 2 ^ 127 }
{
    an_instance_breaks_no_rule(instance);
    let mut total = 0u128;
    for item in 1..instance.items() + 1 {
        total += item_spent(instance, make, setup, item, first);
    }
    total
}

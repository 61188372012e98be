// What there has been of an item up to a period, and what was asked of it.
ghost use Rattle.std.specs.Prelude.{◌≡◌, ◌≤◌, ◌+◌, ◌-◌};
ghost use Rattle.lot_sizing.specs.Problem.{item_count};
ghost use Rattle.lot_sizing.specs.Plan as terms;
ghost use Rattle.plan_rules.specs.Cells.{Fits, table_of};
ghost use Rattle.frozen_start.specs.Held.{AreFlows};

use lot_model::{Instance, an_instance_breaks_no_rule};
use plan_rules::{Grid, arriving, used_up};

/// What there has been of an item up to a period, and what was asked of it, in units of the item.
#[derive(Clone, Copy, Debug, PartialEq, Eq, Drop)]
pub struct Flows {
    /// The opening stock and the lots that have arrived.
    pub supply: u128,
    /// The demand, and what went into other items.
    pub outflow: u128,
}

impl Flows {
    /// The least stock that is left.
    pub fn stock(self) -> u128
        ensures { result ≡ self.supply - self.outflow }
    {
        self.supply.saturating_sub(self.outflow)
    }

    /// The least backlog that is owed.
    pub fn backlog(self) -> u128
        ensures { result ≡ self.outflow - self.supply }
    {
        self.outflow.saturating_sub(self.supply)
    }

    // Before the first period.
    pub(crate) fn before(instance: &Instance, item: u32) -> Flows
        requires low { 1 ≤ item }
        requires high { item ≤ item_count instance.now }
        ensures { (make : terms.Table) → AreFlows instance.now make item 0 result }
    {
        Flows {
            supply: instance.opening(item) as u128,
            outflow: 0,
        }
    }

    // One period later.
    pub(crate) fn next(self, instance: &Instance, make: &Grid, item: u32, period: u32) -> Flows
        requires fits { Fits instance.now make.now }
        requires item_low { 1 ≤ item }
        requires item_high { item ≤ item_count instance.now }
        requires low { 1 ≤ period }
        requires high { period ≤ instance.now.periods }
        requires before { AreFlows instance.now (table_of make.now) item (period - 1) self }
        ensures { AreFlows instance.now (table_of make.now) item period result }
    {
        an_instance_breaks_no_rule(instance);
        Flows {
            supply: self.supply + arriving(instance, make, item, period) as u128,
            outflow: self.outflow
                + instance.demand(item, period) as u128
                + used_up(instance, make, item, period),
        }
    }
}

/// What there has been of an item up to the end of a period, and what was asked of it; before the first
/// period where the period is 0.
pub fn flows_after(instance: &Instance, make: &Grid, item: u32, period: u32) -> Flows
    requires fits { Fits instance.now make.now }
    requires item_low { 1 ≤ item }
    requires item_high { item ≤ item_count instance.now }
    requires high { period ≤ instance.now.periods }
    ensures { AreFlows instance.now (table_of make.now) item period result }
{
    an_instance_breaks_no_rule(instance);
    let mut flows = Flows::before(instance, item);
    for now in 1..period + 1 {
        flows = flows.next(instance, make, item, now);
    }
    flows
}

// What a plan has of items and resources over all periods.
ghost use Rattle.std.specs.Prelude.{◌≡◌, ◌≤◌, ◌<◌, ◌+◌, ◌^◌};
ghost use Rattle.lot_sizing.specs.Problem.{item_count, resource_count};
ghost use Rattle.lot_sizing.specs.Plan.{cost};
ghost use Rattle.plan_rules.specs.Held.{AllFit, plan_of};
ghost use Rattle.plan_page.specs.Totals.{AreAmounts, AreParts, ArePlanParts, IsLoad};

use lot_model::Instance;
use plan_rules::{CostParts, Plan, cost_parts, time_used, used_up};
use report::parts_add_up;

/// What a plan has of an item over all periods.
#[derive(Clone, Copy)]
pub struct Amounts {
    /// Units asked for.
    pub demand: u128,
    /// Units that go into other items.
    pub used: u128,
    /// Units made.
    pub made: u128,
    /// The number of setups.
    pub setups: u128,
}

/// The time of a resource over all periods.
#[derive(Clone, Copy)]
pub struct Load {
    /// The time used.
    pub used: u128,
    /// The time that there is.
    pub capacity: u128,
}

/// The amounts of an item.
#[tactic(auto, using(lot_sizing::proofs::Sums::sum_to_more), unfolding(crate::specs::Totals::demand_total, crate::specs::Totals::use_total))]
pub fn item_amounts(instance: &Instance, plan: &Plan, item: u32) -> Amounts
    requires fits { AllFit instance.now plan.now }
    requires low { 1 ≤ item }
    requires high { item ≤ item_count instance.now }
    ensures { AreAmounts instance.now (plan_of plan.now) item result }
{
    let mut amounts = Amounts {
        demand: 0,
        used: 0,
        made: 0,
        setups: 0,
    };
    for period in 1..instance.periods() + 1 {
        amounts.demand += instance.demand(item, period) as u128;
        amounts.used += used_up(instance, &plan.make, item, period);
        amounts.made += plan.make.get(item, period) as u128;
        amounts.setups += plan.setup.get(item, period) as u128;
    }
    amounts
}

/// What an item costs, by its four parts.
#[tactic(auto, using(lot_sizing::proofs::Sums::sum_to_more))]
pub fn item_parts(instance: &Instance, plan: &Plan, item: u32) -> CostParts
    requires fits { AllFit instance.now plan.now }
    requires low { 1 ≤ item }
    requires high { item ≤ item_count instance.now }
    ensures parts { AreParts instance.now (plan_of plan.now) item result }
    ensures small { result.unit + result.setup + result.hold + result.backlog < 2 ^ 104 }
{
    let mut total = CostParts {
        unit: 0,
        setup: 0,
        hold: 0,
        backlog: 0,
    };
    for period in 1..instance.periods() + 1 {
        let parts = cost_parts(instance, plan, item, period);
        total.unit += parts.unit;
        total.setup += parts.setup;
        total.hold += parts.hold;
        total.backlog += parts.backlog;
    }
    total
}

/// What a plan costs, by its four parts.
#[tactic(auto, using(lot_sizing::proofs::Sums::sum_to_more), unfolding(crate::specs::Totals::unit_total, crate::specs::Totals::setup_total, crate::specs::Totals::hold_total, crate::specs::Totals::backlog_total))]
pub fn plan_parts(instance: &Instance, plan: &Plan) -> CostParts
    requires { AllFit instance.now plan.now }
    ensures parts { ArePlanParts instance.now (plan_of plan.now) result }
    ensures small { result.unit + result.setup + result.hold + result.backlog < 2 ^ 110 }
{
    let mut total = CostParts {
        unit: 0,
        setup: 0,
        hold: 0,
        backlog: 0,
    };
    for item in 1..instance.items() + 1 {
        let parts = item_parts(instance, plan, item);
        total.unit += parts.unit;
        total.setup += parts.setup;
        total.hold += parts.hold;
        total.backlog += parts.backlog;
    }
    total
}

/// What a plan costs.
pub fn plan_cost(instance: &Instance, plan: &Plan) -> u128
    requires { AllFit instance.now plan.now }
    ensures value { result ≡ cost instance.now (plan_of plan.now) }
    ensures small { result < 2 ^ 110 }
{
    let parts = plan_parts(instance, plan);
    parts_add_up();
    parts.unit + parts.setup + parts.hold + parts.backlog
}

/// The time of a resource.
#[tactic(auto, using(lot_sizing::proofs::Sums::sum_to_more), unfolding(crate::specs::Totals::used_total, crate::specs::Totals::capacity_total))]
pub fn resource_load(instance: &Instance, plan: &Plan, resource: u32) -> Load
    requires fits { AllFit instance.now plan.now }
    requires low { 1 ≤ resource }
    requires high { resource ≤ resource_count instance.now }
    ensures load { IsLoad instance.now (plan_of plan.now) resource result }
    ensures small { result.used < 2 ^ 120 }
{
    let mut load = Load {
        used: 0,
        capacity: 0,
    };
    for period in 1..instance.periods() + 1 {
        load.used += time_used(instance, plan, resource, period);
        load.capacity += instance.capacity(resource, period) as u128;
    }
    load
}

// The sums that a plan's rules and cost are made of.
ghost use Rattle.std.specs.Prelude.{◌≡◌, ◌≤◌, ◌<◌, ◌+◌, ◌*◌, ◌^◌, ◌-◌, IsTrue, ◌↔◌};
ghost use Rattle.lot_sizing.specs.Sums.{sum_to};
ghost use Rattle.lot_sizing.specs.Problem.{item_count, unit_cost, setup_cost, hold_cost, backlog_cost};
ghost use Rattle.lot_sizing.specs.Plan.{arriving, used_up, time_used, stock_after, backlog_after, IsBalanced, cost_at, cost};
ghost use Rattle.plan_rules.specs.Cells.{Fits, table_of};
ghost use Rattle.plan_rules.specs.Held.{AllFit, plan_of, most_used_up, most_time, most_cost_at};
ghost use Rattle.plan_rules.specs.Broken.{balance_left, balance_right};
ghost use Rattle.lot_sizing.specs.declared.limits.TheConstants.{MAX_ITEMS, MAX_PERIODS};

use crate::{Grid, Plan};
use lot_model::Instance;

/// The lot of an item that arrives in a period, in units of it: what was started the lead time before.
/// It is 0 where that is before the first period.
pub fn arriving(instance: &Instance, make: &Grid, item: u32, period: u32) -> u64
    requires fits { Fits instance.now make.now }
    requires item_low { 1 ≤ item }
    requires item_high { item ≤ item_count instance.now }
    requires low { 1 ≤ period }
    requires high { period ≤ instance.now.periods }
    ensures { result ≡ arriving instance.now (table_of make.now) item period }
{
    let lead = instance.lead(item);
    if period > lead {
        make.get(item, period - lead)
    } else {
        0
    }
}

/// How many units of an item go into the lots of other items that are started in a period.
///
/// It takes time in the number of lines of the bill.
#[tactic(auto, using(lot_sizing::proofs::Sums::sum_to_more))]
pub fn used_up(instance: &Instance, make: &Grid, item: u32, period: u32) -> u128
    requires fits { Fits instance.now make.now }
    requires low { 1 ≤ period }
    requires high { period ≤ instance.now.periods }
    ensures value { result ≡ used_up instance.now (table_of make.now) item period }
    ensures small { result ≤ most_used_up }
{
    let mut total = 0u128;
    for other in 1..instance.items() + 1 {
        total += instance.per_unit(item, other) as u128 * make.get(other, period) as u128;
    }
    total
}

// The stock at the end of the period before.
fn stock_before(instance: &Instance, plan: &Plan, item: u32, period: u32) -> u64
    requires fits { AllFit instance.now plan.now }
    requires item_low { 1 ≤ item }
    requires item_high { item ≤ item_count instance.now }
    requires low { 1 ≤ period }
    requires high { period ≤ instance.now.periods }
    ensures { result ≡ stock_after instance.now (plan_of plan.now) item (period - 1) }
{
    if period == 1 {
        instance.opening(item)
    } else {
        plan.stock.get(item, period - 1)
    }
}

// The backlog at the end of the period before.
fn backlog_before(instance: &Instance, plan: &Plan, item: u32, period: u32) -> u64
    requires fits { AllFit instance.now plan.now }
    requires item_low { 1 ≤ item }
    requires item_high { item ≤ item_count instance.now }
    requires low { 1 ≤ period }
    requires high { period ≤ instance.now.periods }
    ensures { result ≡ backlog_after (plan_of plan.now) item (period - 1) }
{
    if period == 1 {
        0
    } else {
        plan.backlog.get(item, period - 1)
    }
}

// Whether the balance of an item holds in a period.
pub fn is_balanced(instance: &Instance, plan: &Plan, item: u32, period: u32) -> bool
    requires fits { AllFit instance.now plan.now }
    requires item_low { 1 ≤ item }
    requires item_high { item ≤ item_count instance.now }
    requires low { 1 ≤ period }
    requires high { period ≤ instance.now.periods }
    ensures { IsTrue result ↔ IsBalanced instance.now (plan_of plan.now) item period }
{
    let from = stock_before(instance, plan, item, period) as u128
        + arriving(instance, &plan.make, item, period) as u128
        + plan.backlog.get(item, period) as u128;
    let into = instance.demand(item, period) as u128
        + used_up(instance, &plan.make, item, period)
        + plan.stock.get(item, period) as u128
        + backlog_before(instance, plan, item, period) as u128;
    from == into
}

// What there is of an item in a period with the lot that arrives, less what is owed.
pub fn balance_left(instance: &Instance, plan: &Plan, item: u32, period: u32) -> i128
    requires fits { AllFit instance.now plan.now }
    requires item_low { 1 ≤ item }
    requires item_high { item ≤ item_count instance.now }
    requires low { 1 ≤ period }
    requires high { period ≤ instance.now.periods }
    ensures { result ≡ balance_left instance.now (plan_of plan.now) item period }
{
    let stock = stock_before(instance, plan, item, period) as i128;
    let owed = backlog_before(instance, plan, item, period) as i128;
    stock - owed + arriving(instance, &plan.make, item, period) as i128
}

// Where it goes.
pub fn balance_right(instance: &Instance, plan: &Plan, item: u32, period: u32) -> i128
    requires fits { AllFit instance.now plan.now }
    requires item_low { 1 ≤ item }
    requires item_high { item ≤ item_count instance.now }
    requires low { 1 ≤ period }
    requires high { period ≤ instance.now.periods }
    ensures { result ≡ balance_right instance.now (plan_of plan.now) item period }
{
    let into = instance.demand(item, period) as u128
        + used_up(instance, &plan.make, item, period)
        + plan.stock.get(item, period) as u128;
    into as i128 - plan.backlog.get(item, period) as i128
}

/// The time that a resource is used in a period, in time units of the resource.
///
/// It takes time in the number of lines of uses.
#[tactic(auto, using(lot_sizing::proofs::Sums::sum_to_more))]
pub fn time_used(instance: &Instance, plan: &Plan, resource: u32, period: u32) -> u128
    requires fits { AllFit instance.now plan.now }
    requires low { 1 ≤ period }
    requires high { period ≤ instance.now.periods }
    ensures value { result ≡ time_used instance.now (plan_of plan.now) resource period }
    ensures small { result ≤ most_time }
{
    let mut total = 0u128;
    for item in 1..instance.items() + 1 {
        total += instance.unit_time(item, resource) as u128 * plan.make.get(item, period) as u128
            + instance.setup_time(item, resource) as u128 * plan.setup.get(item, period) as u128;
    }
    total
}

/// What an item costs in a period, by its four parts, in money.
#[derive(Clone, Copy, Debug, PartialEq, Eq, Drop)]
pub struct CostParts {
    /// The cost of the units that are made.
    pub unit: u128,
    /// The cost of the setup.
    pub setup: u128,
    /// The cost of the stock at the end of the period.
    pub hold: u128,
    /// The cost of the backlog at the end of the period.
    pub backlog: u128,
}

/// What an item costs in a period, by its four parts.
pub fn cost_parts(instance: &Instance, plan: &Plan, item: u32, period: u32) -> CostParts
    requires fits { AllFit instance.now plan.now }
    requires item_low { 1 ≤ item }
    requires item_high { item ≤ item_count instance.now }
    requires low { 1 ≤ period }
    requires high { period ≤ instance.now.periods }
    ensures unit { result.unit ≡ unit_cost instance.now item period
        * table_of plan.now.make item period }
    ensures setup { result.setup ≡ setup_cost instance.now item period
        * table_of plan.now.setup item period }
    ensures hold { result.hold ≡ hold_cost instance.now item period
        * table_of plan.now.stock item period }
    ensures backlog { result.backlog ≡ backlog_cost instance.now item period
        * table_of plan.now.backlog item period }
    ensures small { result.unit + result.setup + result.hold + result.backlog ≤ most_cost_at }
{
    let owed = instance.backlog_cost(item, period).unwrap_or(0);
    CostParts {
        unit: instance.unit_cost(item, period) as u128 * plan.make.get(item, period) as u128,
        setup: instance.setup_cost(item, period) as u128 * plan.setup.get(item, period) as u128,
        hold: instance.hold_cost(item, period) as u128 * plan.stock.get(item, period) as u128,
        backlog: owed as u128 * plan.backlog.get(item, period) as u128,
    }
}

// What an item costs in a period.
fn cost_at(instance: &Instance, plan: &Plan, item: u32, period: u32) -> u128
    requires fits { AllFit instance.now plan.now }
    requires item_low { 1 ≤ item }
    requires item_high { item ≤ item_count instance.now }
    requires low { 1 ≤ period }
    requires high { period ≤ instance.now.periods }
    ensures value { result ≡ cost_at instance.now (plan_of plan.now) item period }
    ensures small { result ≤ most_cost_at }
{
    let parts = cost_parts(instance, plan, item, period);
    parts.unit + parts.setup + parts.hold + parts.backlog
}

// What an item costs.
#[tactic(auto, using(lot_sizing::proofs::Sums::sum_to_more))]
fn item_cost(instance: &Instance, plan: &Plan, item: u32) -> u128
    requires fits { AllFit instance.now plan.now }
    requires item_low { 1 ≤ item }
    requires item_high { item ≤ item_count instance.now }
    ensures value { result ≡ sum_to instance.now.periods
        (λ t. cost_at instance.now (plan_of plan.now) item t) }
    ensures small { result ≤ MAX_PERIODS * most_cost_at }
{
    let mut total = 0u128;
    for period in 1..instance.periods() + 1 {
        total += cost_at(instance, plan, item, period);
    }
    total
}

// What a plan costs.
#[tactic(auto, using(lot_sizing::proofs::Sums::sum_to_more))]
pub fn cost(instance: &Instance, plan: &Plan) -> u128
    requires { AllFit instance.now plan.now }
    ensures value { result ≡ cost instance.now (plan_of plan.now) }
    ensures small { result < 2 ^ 127 }
{
    let mut total = 0u128;
    for item in 1..instance.items() + 1 {
        total += item_cost(instance, plan, item);
    }
    total
}

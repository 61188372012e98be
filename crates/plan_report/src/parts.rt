// What a plan costs, by the four kinds of costs.
ghost use Rattle.std.specs.Prelude.{◌≡◌, ◌≤◌, ◌<◌, ◌^◌};
ghost use Rattle.lot_sizing.specs.Problem.{item_count};
ghost use Rattle.lot_sizing.specs.Plan.{cost};
ghost use Rattle.plan_rules.specs.Held.{AllFit, most_cost_at, plan_of};
ghost use Rattle.plan_report.specs.Parts.{item_cost, part_at, part_of, part_total};

use crate::laws::parts_add_up;
use lot_model::Instance;
use plan_rules::{Plan, cost_parts};

/// A kind of costs.
#[derive(Clone, Copy, Debug, PartialEq, Eq)]
pub enum Part {
    /// Of setups.
    Setups,
    /// Of the units made.
    Making,
    /// Of stocks at the ends of periods.
    Holding,
    /// Of backlogs at the ends of periods.
    Owing,
}

// A part of what an item costs in a period.
#[tactic(auto, unfolding(crate::specs::Parts::part_at))]
fn part_at(instance: &Instance, plan: &Plan, part: Part, item: u32, period: u32) -> u128
    requires fits { AllFit instance.now plan.now }
    requires item_low { 1 ≤ item }
    requires item_high { item ≤ item_count instance.now }
    requires low { 1 ≤ period }
    requires high { period ≤ instance.now.periods }
    ensures value { result ≡ part_at instance.now (plan_of plan.now) part item period }
    ensures small { result ≤ most_cost_at }
{
    let parts = cost_parts(instance, plan, item, period);
    match part {
        Part::Setups => parts.setup,
        Part::Making => parts.unit,
        Part::Holding => parts.hold,
        Part::Owing => parts.backlog,
    }
}

/// A part of what an item costs over all periods, in money.
#[tactic(auto, using(lot_sizing::proofs::Sums::sum_to_more), unfolding(crate::specs::Parts::part_of))]
pub(crate) fn part_of(instance: &Instance, plan: &Plan, part: Part, item: u32) -> u128
    requires fits { AllFit instance.now plan.now }
    requires low { 1 ≤ item }
    requires high { item ≤ item_count instance.now }
    ensures value { result ≡ part_of instance.now (plan_of plan.now) part item }
    ensures small { result < 2 ^ 106 }
{
    let mut total = 0u128;
    for period in 1..instance.periods() + 1 {
        total += part_at(instance, plan, part, item, period);
    }
    total
}

/// A part of what a plan costs, in money.
#[tactic(auto, using(lot_sizing::proofs::Sums::sum_to_more), unfolding(crate::specs::Parts::part_total))]
pub(crate) fn part_total(instance: &Instance, plan: &Plan, part: Part) -> u128
    requires fits { AllFit instance.now plan.now }
    ensures value { result ≡ part_total instance.now (plan_of plan.now) part }
    ensures small { result < 2 ^ 112 }
{
    let mut total = 0u128;
    for item in 1..instance.items() + 1 {
        total += part_of(instance, plan, part, item);
    }
    total
}

/// What an item costs, in money.
pub(crate) fn item_cost(instance: &Instance, plan: &Plan, item: u32) -> u128
    requires fits { AllFit instance.now plan.now }
    requires low { 1 ≤ item }
    requires high { item ≤ item_count instance.now }
    ensures value { result ≡ item_cost instance.now (plan_of plan.now) item }
{
    let setups = part_of(instance, plan, Part::Setups, item);
    let making = part_of(instance, plan, Part::Making, item);
    let holding = part_of(instance, plan, Part::Holding, item);
    let owing = part_of(instance, plan, Part::Owing, item);
    parts_add_up();
    setups + making + holding + owing
}

/// What a plan costs, in money.
pub(crate) fn plan_cost(instance: &Instance, plan: &Plan) -> u128
    requires fits { AllFit instance.now plan.now }
    ensures value { result ≡ cost instance.now (plan_of plan.now) }
{
    let setups = part_total(instance, plan, Part::Setups);
    let making = part_total(instance, plan, Part::Making);
    let holding = part_total(instance, plan, Part::Holding);
    let owing = part_total(instance, plan, Part::Owing);
    parts_add_up();
    setups + making + holding + owing
}

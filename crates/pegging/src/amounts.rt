// How much supplies have and needs take.
ghost use Rattle.std.specs.Prelude.{◌≡◌, ◌≤◌};
ghost use Rattle.lot_sizing.specs.Problem.{item_count};
ghost use Rattle.plan_rules.specs.Held.{AllFit, plan_of};
ghost use Rattle.pegging.specs.Pegs.{needed, supplied};
ghost use Rattle.pegging.specs.Sums.{IsSupplyOf, IsTargetOf};

use crate::{Supply, Target};
use lot_model::Instance;
use plan_rules::Plan;

// How many units of an item a supply has.
pub fn supplied(instance: &Instance, plan: &Plan, item: u32, supply: Supply) -> u64
    requires fits { AllFit instance.now plan.now }
    requires low { 1 ≤ item }
    requires high { item ≤ item_count instance.now }
    requires supply { IsSupplyOf instance.now supply }
    ensures { result ≡ supplied instance.now (plan_of plan.now) item supply }
{
    match supply {
        Supply::Opening => instance.opening(item),
        Supply::Lot(period) => plan.make.get(item, period),
    }
}

// How many units of an item a need takes.
pub fn needed(instance: &Instance, plan: &Plan, item: u32, target: Target) -> u128
    requires fits { AllFit instance.now plan.now }
    requires low { 1 ≤ item }
    requires high { item ≤ item_count instance.now }
    requires target { IsTargetOf instance.now target }
    ensures { result ≡ needed instance.now (plan_of plan.now) item target }
{
    match target {
        Target::Demand(period) => instance.demand(item, period) as u128,
        Target::Part {
            item: other,
            period,
        } => instance.per_unit(item, other) as u128 * plan.make.get(other, period) as u128,
        Target::End => plan.stock.get(item, instance.periods()) as u128,
    }
}

// How long lots take.
ghost use Rattle.std.specs.Prelude.{◌≡◌, ◌≤◌, ◌*◌};
ghost use Rattle.lot_sizing.specs.Problem.{item_count, resource_count, capacity};
ghost use Rattle.lot_sizing.specs.Plan.{IsFeasible};
ghost use Rattle.plan_rules.specs.Held.{AllFit, plan_of};
ghost use Rattle.lot_schedule.specs.Slots.{length_of};

use lot_model::Instance;
use plan_rules::Plan;

// The length of an item on a resource in a period, in time units of the resource. A feasible plan has it within
// the capacity.
pub(crate) fn length_of(
    instance: &Instance,
    plan: &Plan,
    resource: u32,
    period: u32,
    item: u32,
) -> u64
    requires fits { AllFit instance.now plan.now }
    requires feasible { IsFeasible instance.now (plan_of plan.now) }
    requires resource_low { 1 ≤ resource }
    requires resource_high { resource ≤ resource_count instance.now }
    requires low { 1 ≤ period }
    requires high { period ≤ instance.now.periods }
    requires item_low { 1 ≤ item }
    requires item_high { item ≤ item_count instance.now }
    ensures value { result ≡ length_of instance.now (plan_of plan.now) resource period item }
    ensures within { result ≤ capacity instance.now resource period }
{
    let units = instance.unit_time(item, resource) as u128 * plan.make.get(item, period) as u128;
    let setups = instance.setup_time(item, resource) as u128 * plan.setup.get(item, period) as u128;
    let most = instance.capacity(resource, period) as u128;
    prove!(units + setups <= most);
    (units + setups) as u64
}

// The lots that take time on a resource in a period.
ghost use Rattle.std.specs.Prelude.{◌≤◌, ◌<◌, IfOk};
ghost use Rattle.lot_sizing.specs.Problem.{item_count, resource_count};
ghost use Rattle.lot_sizing.specs.Plan.{IsFeasible};
ghost use Rattle.lot_model.specs.Views.{IsInstance};
ghost use Rattle.plan_rules.specs.Held.{AllFit, plan_of};
ghost use Rattle.lot_schedule.specs.Lots.{AreLotsOf, AreLotsTo};

use crate::lengths::length_of;
use lot_model::Instance;
use plan_rules::Plan;
use std::alloc::{AllocError, Global};

/// An item with the time that its lot takes, on some resource in some period.
#[derive(Clone, Copy, Debug, Drop)]
pub(crate) struct Lot {
    pub(crate) item: u32,
    pub(crate) length: u64,
}

// The lots of the items that take time on a resource in a period, item by item.
fn lots_by_item(
    alloc: Global,
    instance: &Instance,
    plan: &Plan,
    resource: u32,
    period: u32,
) -> Result<Vec<Lot>, AllocError>
    requires fits { AllFit instance.now plan.now }
    requires feasible { IsFeasible instance.now (plan_of plan.now) }
    requires resource_low { 1 ≤ resource }
    requires resource_high { resource ≤ resource_count instance.now }
    requires low { 1 ≤ period }
    requires high { period ≤ instance.now.periods }
    ensures lots { IfOk result (λ lots.
        AreLotsTo instance.now (plan_of plan.now) resource period (item_count instance.now)
        lots.items) }
    ensures instance { IfOk result (λ _. IsInstance instance.now) }
{
    let mut lots = Vec::new(alloc);
    for item in 1..instance.items() + 1 {
        let length = length_of(instance, plan, resource, period, item);
        if length > 0 {
            lots.push(Lot { item, length })?;
        }
    }
    Ok(lots)
}

// The same lots, shortest first, and of equal ones that of the lesser item first.
pub(crate) fn lots(
    alloc: Global,
    instance: &Instance,
    plan: &Plan,
    resource: u32,
    period: u32,
) -> Result<Vec<Lot>, AllocError>
    requires fits { AllFit instance.now plan.now }
    requires feasible { IsFeasible instance.now (plan_of plan.now) }
    requires resource_low { 1 ≤ resource }
    requires resource_high { resource ≤ resource_count instance.now }
    requires low { 1 ≤ period }
    requires high { period ≤ instance.now.periods }
    ensures lots { IfOk result (λ lots.
        AreLotsOf instance.now (plan_of plan.now) resource period lots.items) }
    ensures instance { IfOk result (λ _. IsInstance instance.now) }
{
    let mut lots = lots_by_item(alloc, instance, plan, resource, period)?;
    lots.sort_by_key(|lot| lot.length)?;
    Ok(lots)
}

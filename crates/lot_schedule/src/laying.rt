// The schedule of a plan.
ghost use Rattle.std.specs.Prelude.{◌≡◌, ◌≤◌, ◌<◌, ◌+◌, ◌^◌, ◌++◌, length, IfOk, OnOk};
ghost use Rattle.lot_sizing.specs.Problem.{resource_count};
ghost use Rattle.lot_sizing.specs.Plan.{IsFeasible};
ghost use Rattle.plan_rules.specs.Held.{AllFit, plan_of};
ghost use Rattle.lot_schedule.specs.Slots.{AllExist, IsSchedule};
ghost use Rattle.lot_schedule.specs.Orders.{HasLeastEnds, IsInOrder, TiesAreByItem};
ghost use Rattle.lot_schedule.specs.Lots.{IsLaidBefore, laid, total_of};
ghost use Rattle.lot_schedule.specs.Texts.{most_slots};

use crate::Slot;
use crate::lots::{Lot, lots};
use lot_model::Instance;
use plan_rules::Plan;
use std::alloc::{AllocError, Global};

// Adds the slots of these lots, one after the other from time 0 on.
fn lay(slots: &mut Vec<Slot>, resource: u32, period: u32, lots: &[Lot]) -> Result<(), AllocError>
    requires { total_of lots.now < 2 ^ 64 }
    ensures { OnOk result (slots.new.items ≡ slots.old.items ++ laid resource period 0 lots.now) }
{
    let mut start = 0u64;
    for lot in lots {
        let end = start + lot.length;
        slots.push(Slot {
            resource,
            period,
            item: lot.item,
            start,
            end,
        })?;
        start = end;
    }
    Ok(())
}

// Adds the slots of a resource in a period after those of all earlier ones.
fn add_period(
    alloc: Global,
    slots: &mut Vec<Slot>,
    instance: &Instance,
    plan: &Plan,
    resource: u32,
    period: u32,
) -> Result<(), AllocError>
    requires fits { AllFit instance.now plan.now }
    requires feasible { IsFeasible instance.now (plan_of plan.now) }
    requires resource_low { 1 ≤ resource }
    requires resource_high { resource ≤ resource_count instance.now }
    requires low { 1 ≤ period }
    requires high { period ≤ instance.now.periods }
    requires earlier { IsLaidBefore instance.now (plan_of plan.now) slots.old.items resource
        period }
    ensures { OnOk result (IsLaidBefore instance.now (plan_of plan.now) slots.new.items resource
        (period + 1)) }
{
    let lots = lots(alloc, instance, plan, resource, period)?;
    lay(slots, resource, period, &lots)?;
    Ok(())
}

// Adds the slots of a resource in all periods after those of all earlier resources.
fn add_resource(
    alloc: Global,
    slots: &mut Vec<Slot>,
    instance: &Instance,
    plan: &Plan,
    resource: u32,
) -> Result<(), AllocError>
    requires fits { AllFit instance.now plan.now }
    requires feasible { IsFeasible instance.now (plan_of plan.now) }
    requires low { 1 ≤ resource }
    requires high { resource ≤ resource_count instance.now }
    requires earlier { IsLaidBefore instance.now (plan_of plan.now) slots.old.items resource 1 }
    ensures { OnOk result (IsLaidBefore instance.now (plan_of plan.now) slots.new.items
        (resource + 1) 1) }
{
    for period in 1..instance.periods() + 1 {
        add_period(alloc, slots, instance, plan, resource, period)?;
    }
    Ok(())
}

/// The schedule of a feasible plan that lays the lots of each resource and period one after the other from time 0
/// on, shortest first, and of equal ones that of the lesser item first. It is in order of resource, period and
/// start. No schedule has a smaller sum of ends on any resource in any period. The error is that memory ran out.
///
/// It takes time in the number of resources times that of periods times that of items, times that of the
/// resources that an item uses.
pub fn schedule(alloc: Global, instance: &Instance, plan: &Plan) -> Result<Vec<Slot>, AllocError>
    requires fits { AllFit instance.now plan.now }
    requires feasible { IsFeasible instance.now (plan_of plan.now) }
    ensures exist { IfOk result (λ slots. AllExist instance.now slots.items) }
    ensures schedule { IfOk result (λ slots.
        IsSchedule instance.now (plan_of plan.now) slots.items) }
    ensures order { IfOk result (λ slots. IsInOrder slots.items) }
    ensures least { IfOk result (λ slots.
        HasLeastEnds instance.now (plan_of plan.now) slots.items) }
    ensures ties { IfOk result (λ slots.
        TiesAreByItem instance.now (plan_of plan.now) slots.items) }
    ensures few { IfOk result (λ slots. length slots.items ≤ most_slots) }
{
    let mut slots = Vec::new(alloc);
    for resource in 1..instance.resources() + 1 {
        add_resource(alloc, &mut slots, instance, plan, resource)?;
    }
    Ok(slots)
}

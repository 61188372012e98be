// Whether each lot that takes time has its slot.
ghost use Rattle.std.specs.Prelude.{◌≤◌, ◌<◌, ◌+◌, ℕ, length, IfErr, IfOk, IfNone, IfSome, OnOk, IsTrue, ◌↔◌};
ghost use Rattle.lot_sizing.specs.Problem.{item_count, resource_count};
ghost use Rattle.lot_sizing.specs.Plan.{Each, IsFeasible};
ghost use Rattle.plan_rules.specs.Held.{AllFit, plan_of};
ghost use Rattle.plan_rules.specs.Order.{HoldsInRow, IsFirstInRow};
ghost use Rattle.lot_schedule.specs.Slots.{HasAll, HasSlot, IsOf, length_of, slot_at};
ghost use Rattle.lot_schedule.specs.Faults.{IsFirstLack};
ghost use Rattle.lot_schedule.specs.Runs.{IsFirstAbsent};

use crate::lengths::length_of;
use crate::{Slot, SlotBroken};
use lot_model::Instance;
use plan_rules::Plan;

// Whether a slot is of this resource, period and item.
fn is_of(slot: Slot, resource: u32, period: u32, item: u32) -> bool
    ensures { IsTrue result ↔ IsOf resource period item slot }
{
    slot.resource == resource && slot.period == period && slot.item == item
}

// The place of the first slot of a lot among those from one place up to another.
fn place_within(
    slots: &[Slot],
    low: usize,
    high: usize,
    resource: u32,
    period: u32,
    item: u32,
) -> Option<usize>
    requires { high ≤ length slots.now }
    ensures found { IfSome result (λ n. (n < length slots.now)
        × IsOf resource period item (slot_at slots.now n)) }
    ensures none { IfNone result ((n : ℕ) → low ≤ n → n < high
        → IsOf resource period item (slot_at slots.now n) → ⊥) }
{
    for place in low..high {
        if is_of(slots[place], resource, period, item) {
            return Some(place);
        }
    }
    None
}

// The place of a slot of a lot, sought from this place on, and then before it.
fn place_of(slots: &[Slot], hint: usize, resource: u32, period: u32, item: u32) -> Option<usize>
    requires { hint ≤ length slots.now }
    ensures found { IfSome result (λ n. (n < length slots.now)
        × IsOf resource period item (slot_at slots.now n)) }
    ensures none { IfNone result (HasSlot slots.now resource period item → ⊥) }
{
    match place_within(slots, hint, slots.len(), resource, period, item) {
        Some(place) => Some(place),
        None => place_within(slots, 0, hint, resource, period, item),
    }
}

// A lot without a slot, on some resource.
#[derive(Clone, Copy, Debug, Drop)]
struct Lack {
    period: u32,
    item: u32,
}

// A lot on a resource that it may take time on.
#[derive(Clone, Copy)]
struct LotOn {
    resource: u32,
    period: u32,
    item: u32,
}

// Whether a lot has its slot on a resource, if it takes time there: the place to begin the next search
// at, which is that of its slot.
fn check_item(
    instance: &Instance,
    plan: &Plan,
    slots: &[Slot],
    hint: usize,
    lot: LotOn,
) -> Option<usize>
    requires fits { AllFit instance.now plan.now }
    requires feasible { IsFeasible instance.now (plan_of plan.now) }
    requires hint { hint ≤ length slots.now }
    requires resource_low { 1 ≤ lot.resource }
    requires resource_high { lot.resource ≤ resource_count instance.now }
    requires low { 1 ≤ lot.period }
    requires high { lot.period ≤ instance.now.periods }
    requires item_low { 1 ≤ lot.item }
    requires item_high { lot.item ≤ item_count instance.now }
    ensures next { IfSome result (λ next. next ≤ length slots.now) }
    ensures found { IfSome result (λ _. 0
        < length_of instance.now (plan_of plan.now) lot.resource lot.period lot.item
        → HasSlot slots.now lot.resource lot.period lot.item) }
    ensures takes { IfNone result (0
        < length_of instance.now (plan_of plan.now) lot.resource lot.period lot.item) }
    ensures absent { IfNone result (HasSlot slots.now lot.resource lot.period lot.item → ⊥) }
{
    if length_of(instance, plan, lot.resource, lot.period, lot.item) == 0 {
        return Some(hint);
    }
    place_of(slots, hint, lot.resource, lot.period, lot.item)
}

// The first item that lacks its slot on a resource in a period, or the place to begin the next search at.
fn check_items(
    instance: &Instance,
    plan: &Plan,
    slots: &[Slot],
    hint: usize,
    resource: u32,
    period: u32,
) -> Result<usize, u32>
    requires fits { AllFit instance.now plan.now }
    requires feasible { IsFeasible instance.now (plan_of plan.now) }
    requires hint { hint ≤ length slots.now }
    requires resource_low { 1 ≤ resource }
    requires resource_high { resource ≤ resource_count instance.now }
    requires low { 1 ≤ period }
    requires high { period ≤ instance.now.periods }
    ensures next { IfOk result (λ next. next ≤ length slots.now) }
    ensures all { OnOk result (HasAll instance.now (plan_of plan.now) slots.now resource period) }
    ensures lack { IfErr result (IsFirstLack instance.now (plan_of plan.now) slots.now resource
        period) }
{
    let mut last = hint;
    for item in 1..instance.items() + 1 {
        let lot = LotOn {
            resource,
            period,
            item,
        };
        match check_item(instance, plan, slots, hint, lot) {
            Some(place) => last = place,
            None => return Err(item),
        }
    }
    Ok(last)
}

// The first period and item that lack a slot on a resource, or the place to begin the next search at.
fn check_periods(
    instance: &Instance,
    plan: &Plan,
    slots: &[Slot],
    hint: usize,
    resource: u32,
) -> Result<usize, Lack>
    requires fits { AllFit instance.now plan.now }
    requires feasible { IsFeasible instance.now (plan_of plan.now) }
    requires hint { hint ≤ length slots.now }
    requires low { 1 ≤ resource }
    requires high { resource ≤ resource_count instance.now }
    ensures next { IfOk result (λ next. next ≤ length slots.now) }
    ensures all { OnOk result (HoldsInRow instance.now.periods
        (HasAll instance.now (plan_of plan.now) slots.now) resource) }
    ensures first { IfErr result (λ at.
        IsFirstInRow instance.now.periods (HasAll instance.now (plan_of plan.now) slots.now)
        resource at.period) }
    ensures lack { IfErr result (λ at.
        IsFirstLack instance.now (plan_of plan.now) slots.now resource at.period at.item) }
{
    let mut last = hint;
    for period in 1..instance.periods() + 1 {
        match check_items(instance, plan, slots, last, resource, period) {
            Ok(place) => last = place,
            Err(item) => return Err(Lack { period, item }),
        }
    }
    Ok(last)
}

// The first resource, period and item that lack a slot.
pub(crate) fn check_all(instance: &Instance, plan: &Plan, slots: &[Slot]) -> Result<(), SlotBroken>
    requires fits { AllFit instance.now plan.now }
    requires feasible { IsFeasible instance.now (plan_of plan.now) }
    ensures all { OnOk result (Each (resource_count instance.now) instance.now.periods
        (HasAll instance.now (plan_of plan.now) slots.now)) }
    ensures absent { IfErr result (IsFirstAbsent instance.now (plan_of plan.now) slots.now) }
{
    let mut last = 0;
    for resource in 1..instance.resources() + 1 {
        match check_periods(instance, plan, slots, last, resource) {
            Ok(place) => last = place,
            Err(Lack { period, item }) => {
                return Err(SlotBroken::Absent {
                    resource,
                    period,
                    item,
                });
            }
        }
    }
    Ok(())
}

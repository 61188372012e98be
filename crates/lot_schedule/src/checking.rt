// Whether slots are a schedule.
ghost use Rattle.std.specs.Prelude.{◌<◌, ◌≤◌, ◌+◌, ◌-◌, length, IfErr, OnErr, OnOk, IsTrue, ◌↔◌};
ghost use Rattle.lot_sizing.specs.Plan.{IsFeasible};
ghost use Rattle.plan_rules.specs.Held.{AllFit, plan_of};
ghost use Rattle.plan_rules.specs.Order.{IsBefore};
ghost use Rattle.lot_schedule.specs.Slots.{AllExist, AreOfOneLot, AreTogether, IsSchedule, slot_at};
ghost use Rattle.lot_schedule.specs.Faults.{AreGoodBefore, IsBadSlot, IsFirstBad, IsGood, IsListedBefore, IsSlotBroken, OverlapsEarlier};
ghost use Rattle.lot_schedule.specs.Runs.{IsRun, NoneBefore};

use crate::absent::check_all;
use crate::lengths::length_of;
use crate::{Slot, SlotBroken};
use lot_model::Instance;
use plan_rules::Plan;

// Whether two slots are of one resource and period.
fn are_together(one: Slot, other: Slot) -> bool
    ensures { IsTrue result ↔ AreTogether one other }
{
    one.resource == other.resource && one.period == other.period
}

// Whether two slots are of one resource, period and item.
fn are_of_one_lot(one: Slot, other: Slot) -> bool
    ensures { IsTrue result ↔ AreOfOneLot one other }
{
    are_together(one, other) && one.item == other.item
}

// Whether the resource and period of a slot come before those of another.
fn is_earlier(one: Slot, other: Slot) -> bool
    ensures { IsTrue result ↔ IsBefore one.resource one.period other.resource other.period }
{
    one.resource < other.resource || (one.resource == other.resource && one.period < other.period)
}

// Whether its period and resource do, by the period first.
fn is_sooner(one: Slot, other: Slot) -> bool
    ensures { IsTrue result ↔ IsBefore one.period one.resource other.period other.resource }
{
    one.period < other.period || (one.period == other.period && one.resource < other.resource)
}

// Where the slots of one resource and period begin, as far as they were looked at: no earlier slot is of these. As
// long as slots stand in order of resource and period, or of period and resource, it is where these begin, and
// afterwards the first place.
#[derive(Clone, Copy, Debug, Drop)]
struct Run {
    first: usize,
    by_resource: bool,
    by_period: bool,
}

// The run of the slot at this place, which is of another resource or period than the slot before it.
fn new_run(slots: &[Slot], run: Run, place: usize) -> Run
    requires some { 1 ≤ place }
    requires place { place < length slots.now }
    requires run { IsRun slots.now run place }
    requires apart { AreTogether (slot_at slots.now (place - 1)) (slot_at slots.now place) → ⊥ }
    ensures { IsRun slots.now result (place + 1) }
{
    let (last, slot) = (slots[place - 1], slots[place]);
    let by_resource = run.by_resource && is_earlier(last, slot);
    let by_period = run.by_period && is_sooner(last, slot);
    let first = if by_resource || by_period { place } else { 0 };
    Run {
        first,
        by_resource,
        by_period,
    }
}

// The run of the slot at this place, after that of the slot before it.
fn next_run(slots: &[Slot], run: Run, place: usize) -> Run
    requires place { place < length slots.now }
    requires run { IsRun slots.now run place }
    ensures { IsRun slots.now result (place + 1) }
{
    if place == 0 {
        return run;
    }
    if are_together(slots[place - 1], slots[place]) {
        return run;
    }
    new_run(slots, run, place)
}

// Whether the lot of a slot has an earlier one. Only those from this place on can be of its resource and period.
fn is_listed_before(slots: &[Slot], first: usize, place: usize) -> bool
    requires place { place < length slots.now }
    requires first { NoneBefore slots.now first place }
    ensures { IsTrue result ↔ IsListedBefore slots.now place }
{
    for earlier in first..place {
        if are_of_one_lot(slots[earlier], slots[place]) {
            return true;
        }
    }
    false
}

// Whether two slots are of one resource and period and overlap.
fn overlap(one: Slot, other: Slot) -> bool
    ensures { IsTrue result ↔ (AreTogether one other × (other.start < one.end)
        × (one.start < other.end)) }
{
    are_together(one, other) && other.start < one.end && one.start < other.end
}

// Whether a slot overlaps an earlier one of its resource and period.
fn overlaps_earlier(slots: &[Slot], first: usize, place: usize) -> bool
    requires place { place < length slots.now }
    requires first { NoneBefore slots.now first place }
    ensures { IsTrue result ↔ OverlapsEarlier slots.now place }
{
    for earlier in first..place {
        if overlap(slots[earlier], slots[place]) {
            return true;
        }
    }
    false
}

// What is wrong with the slot at a place, beside those before it.
fn check_slot(
    instance: &Instance,
    plan: &Plan,
    slots: &[Slot],
    first: usize,
    place: usize,
) -> Result<(), SlotBroken>
    requires fits { AllFit instance.now plan.now }
    requires feasible { IsFeasible instance.now (plan_of plan.now) }
    requires exist { AllExist instance.now slots.now }
    requires place { place < length slots.now }
    requires first { NoneBefore slots.now first place }
    ensures good { OnOk result (IsGood instance.now (plan_of plan.now) slots.now place) }
    ensures bad { IfErr result (IsBadSlot instance.now (plan_of plan.now) slots.now place) }
{
    let slot = slots[place];
    let row = place as u64 + 1;
    let length = length_of(instance, plan, slot.resource, slot.period, slot.item);
    if length == 0 || is_listed_before(slots, first, place) {
        return Err(SlotBroken::Extra(row));
    }
    if slot.end < slot.start || slot.end - slot.start != length {
        return Err(SlotBroken::Length(row));
    }
    if slot.end > instance.capacity(slot.resource, slot.period) {
        return Err(SlotBroken::Past(row));
    }
    if overlaps_earlier(slots, first, place) {
        return Err(SlotBroken::Overlap(row));
    }
    Ok(())
}

// What is wrong with the first slot that isn't good.
fn check_slots(instance: &Instance, plan: &Plan, slots: &[Slot]) -> Result<(), SlotBroken>
    requires fits { AllFit instance.now plan.now }
    requires feasible { IsFeasible instance.now (plan_of plan.now) }
    requires exist { AllExist instance.now slots.now }
    ensures good { OnOk result (AreGoodBefore instance.now (plan_of plan.now) slots.now
        (length slots.now)) }
    ensures bad { IfErr result (IsFirstBad instance.now (plan_of plan.now) slots.now) }
{
    let mut run = Run {
        first: 0,
        by_resource: true,
        by_period: true,
    };
    for place in 0..slots.len() {
        run = next_run(slots, run, place);
        check_slot(instance, plan, slots, run.first, place)?;
    }
    Ok(())
}

/// Whether slots are a schedule of a feasible plan. Where they aren't, the answer is the first slot with a fault,
/// and of its faults the one that `SlotBroken` names first; where each slot is as it should be, the first lot that
/// has none.
///
/// It takes no memory. It takes time in the number of slots times that of the items where slots stand in order of
/// resource and period, as `schedule` gives them, or of period and resource, and in the square of the number of slots
/// at most.
pub fn check_schedule(instance: &Instance, plan: &Plan, slots: &[Slot]) -> Result<(), SlotBroken>
    requires fits { AllFit instance.now plan.now }
    requires feasible { IsFeasible instance.now (plan_of plan.now) }
    requires exist { AllExist instance.now slots.now }
    ensures schedule { OnOk result (IsSchedule instance.now (plan_of plan.now) slots.now) }
    ensures broken { IfErr result (IsSlotBroken instance.now (plan_of plan.now) slots.now) }
    ensures refused { OnErr result (IsSchedule instance.now (plan_of plan.now) slots.now → ⊥) }
{
    check_slots(instance, plan, slots)?;
    check_all(instance, plan, slots)?;
    Ok(())
}

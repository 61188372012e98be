// What schedules are, by their definition alone, for plans of at most three items, resources and periods.
ghost use Rattle.std.specs.Prelude.{◌<◌, length};
ghost use Rattle.plan_rules.specs.Held.{AllFit};

use lot_model::Instance;
use lot_schedule::Slot;
use plan_rules::Plan;
use std::alloc::Global;
use std::process::Abort;

// The time that an item takes on a resource in a period, and 0 where one of them doesn't exist.
fn length(instance: &Instance, plan: &Plan, resource: u32, period: u32, item: u32) -> u64
    requires { AllFit instance.now plan.now }
{
    let is_resource = 1 <= resource && resource <= instance.resources();
    let is_period = 1 <= period && period <= instance.periods();
    let is_item = 1 <= item && item <= instance.items();
    if is_resource && is_period && is_item {
        let unit = instance.unit_time(item, resource);
        let setup = instance.setup_time(item, resource);
        unit.saturating_mul(plan.make.get(item, period))
            .saturating_add(setup.saturating_mul(plan.setup.get(item, period)))
    } else {
        0
    }
}

// The time of a resource in a period, and 0 where one of them doesn't exist.
fn capacity(instance: &Instance, resource: u32, period: u32) -> u64 {
    let is_resource = 1 <= resource && resource <= instance.resources();
    let is_period = 1 <= period && period <= instance.periods();
    if is_resource && is_period {
        instance.capacity(resource, period)
    } else {
        0
    }
}

// Each order of three items.
const ORDERS: [[u32; 3]; 6] = [
    [1, 2, 3],
    [1, 3, 2],
    [2, 1, 3],
    [2, 3, 1],
    [3, 1, 2],
    [3, 2, 1],
];

// The sum of ends where the lots of a resource in a period are laid in this order.
fn sum_of_ends(instance: &Instance, plan: &Plan, resource: u32, period: u32, order: [u32; 3]) -> u64
    requires { AllFit instance.now plan.now }
{
    let mut sum = 0u64;
    let mut end = 0u64;
    for item in order {
        let length = length(instance, plan, resource, period, item);
        if length > 0 {
            end = end.saturating_add(length);
            sum = sum.saturating_add(end);
        }
    }
    sum
}

// The first order whose sum of ends is least.
fn best_order(instance: &Instance, plan: &Plan, resource: u32, period: u32) -> [u32; 3]
    requires { AllFit instance.now plan.now }
{
    let mut best = [1, 2, 3];
    for order in ORDERS {
        let sum = sum_of_ends(instance, plan, resource, period, order);
        if sum < sum_of_ends(instance, plan, resource, period, best) {
            best = order;
        }
    }
    best
}

// Adds the rows of a resource in a period.
fn add_rows(
    rt: &impl Abort,
    text: &mut String,
    instance: &Instance,
    plan: &Plan,
    resource: u32,
    period: u32,
)
    requires { AllFit instance.now plan.now }
{
    let mut end = 0u64;
    for item in best_order(instance, plan, resource, period) {
        let length = length(instance, plan, resource, period, item);
        if length > 0 {
            let start = end;
            end = end.saturating_add(length);
            write!(text, "m{resource},{period},i{item},{start},{end}\n").expect(rt, "memory");
        }
    }
}

/// Adds the text of the schedule that has the least sum of ends on each resource in each period.
pub fn add_schedule(rt: &impl Abort, text: &mut String, instance: &Instance, plan: &Plan)
    requires { AllFit instance.now plan.now }
{
    text.push_str("resource,period,item,start,end\n")
        .expect(rt, "memory");
    for place in 0..9u32 {
        add_rows(rt, text, instance, plan, 1 + place / 3, 1 + place % 3);
    }
}

// Whether the resource, period and item of a slot exist.
fn exists(instance: &Instance, slot: Slot) -> bool {
    let is_resource = 1 <= slot.resource && slot.resource <= instance.resources();
    let is_period = 1 <= slot.period && slot.period <= instance.periods();
    let is_item = 1 <= slot.item && slot.item <= instance.items();
    is_resource && is_period && is_item
}

// The number of the first row whose slot names what doesn't exist.
fn bad_row(instance: &Instance, slots: &[Slot]) -> Option<u64> {
    let mut row = 0u64;
    for slot in slots {
        row = row.saturating_add(1);
        if !exists(instance, *slot) {
            return Some(row);
        }
    }
    None
}

// Whether two slots are of one resource and period.
fn are_together(one: Slot, other: Slot) -> bool {
    one.resource == other.resource && one.period == other.period
}

// Whether neither of two slots ends at or before the start of the other.
fn overlap(one: Slot, other: Slot) -> bool {
    !(one.end <= other.start || other.end <= one.start)
}

// The number of the first thing that is wrong with the slot at a place, and 0 where nothing is.
fn wrong(instance: &Instance, plan: &Plan, slots: &[Slot], place: usize) -> u32
    requires fits { AllFit instance.now plan.now }
    requires place { place < length slots.now }
{
    let slot = slots[place];
    let mut again = false;
    let mut over = false;
    for other in &slots[..place] {
        let together = are_together(*other, slot);
        again = again || (together && other.item == slot.item);
        over = over || (together && overlap(*other, slot));
    }
    let length = length(instance, plan, slot.resource, slot.period, slot.item);
    if length == 0 || again {
        1
    } else if slot.start.checked_add(length) != Some(slot.end) {
        2
    } else if slot.end > capacity(instance, slot.resource, slot.period) {
        3
    } else if over {
        4
    } else {
        0
    }
}

// What is wrong with the first slot with which something is.
fn first_wrong(
    rt: &impl Abort,
    alloc: Global,
    instance: &Instance,
    plan: &Plan,
    slots: &[Slot],
) -> Option<String>
    requires { AllFit instance.now plan.now }
{
    for place in 0..slots.len() {
        let number = wrong(instance, plan, slots, place);
        if number > 0 {
            let row = place as u64 + 1;
            return Some(format!(in alloc; "rejected slot {number} row {row}").expect(rt, "memory"));
        }
    }
    None
}

// Whether there is a slot of a lot.
fn has_slot(slots: &[Slot], resource: u32, period: u32, item: u32) -> bool {
    for slot in slots {
        if slot.resource == resource && slot.period == period && slot.item == item {
            return true;
        }
    }
    false
}

// The first resource, period and item with a length but without a slot.
fn absent(
    rt: &impl Abort,
    alloc: Global,
    instance: &Instance,
    plan: &Plan,
    slots: &[Slot],
) -> Option<String>
    requires { AllFit instance.now plan.now }
{
    for place in 0..27u32 {
        let (resource, period, item) = (1 + place / 9, 1 + place / 3 % 3, 1 + place % 3);
        let takes = length(instance, plan, resource, period, item) > 0;
        if takes && !has_slot(slots, resource, period, item) {
            return Some(format!(in alloc;
                "rejected slot 5 resource {resource} period {period} item {item}"
            ).expect(rt, "memory"));
        }
    }
    None
}

/// What is found first of slots whose rows are read, or that they are accepted.
pub fn told_plainly(
    rt: &impl Abort,
    alloc: Global,
    instance: &Instance,
    plan: &Plan,
    slots: &[Slot],
) -> String
    requires { AllFit instance.now plan.now }
{
    if let Some(row) = bad_row(instance, slots) {
        return format!(in alloc; "slot row {row}").expect(rt, "memory");
    }
    if let Some(found) = first_wrong(rt, alloc, instance, plan, slots) {
        return found;
    }
    match absent(rt, alloc, instance, plan, slots) {
        Some(found) => found,
        None => String::from_str(alloc, "accepted").expect(rt, "memory"),
    }
}

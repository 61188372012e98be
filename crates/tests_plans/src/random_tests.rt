// Schedules, what is found of changed ones, and pegs of random plans, beside what the definitions say of each pair.
ghost use Rattle.lot_sizing.specs.Plan.{IsFeasible};
ghost use Rattle.plan_rules.specs.Held.{AllFit, plan_of};

use crate::plain_pegs::add_pegs;
use crate::plain_schedules::{add_schedule, told_plainly};
use crate::random_plans::{draw, draw_choices, draw_instance};
use lot_model::Instance;
use lot_schedule::{Slot, check_schedule, read_schedule, schedule, write_schedule};
use pegging::{peg, write_pegs};
use plan_rules::{Plan, complete};
use rand_core::utils::NextWord;
use rand_pcg::Lcg64Xsh32;
use std::alloc::Global;
use std::process::Abort;

// What the calls say, and what the definitions say.
#[derive(Drop)]
struct Both {
    found: String,
    plain: String,
}

// Adds bytes that are a text.
fn add_bytes(rt: &impl Abort, text: &mut String, bytes: Vec<u8>) {
    match String::from_utf8(bytes) {
        Ok(more) => text.push_str(more.as_str()).expect(rt, "memory"),
        Err(_) => text.push_str("no text\n").expect(rt, "memory"),
    }
}

// The rows of slots, whether what they name exists or not.
fn rows(rt: &impl Abort, alloc: Global, slots: &[Slot]) -> String {
    let mut text = String::from_str(alloc, "resource,period,item,start,end\n").expect(rt, "memory");
    for slot in slots {
        let (resource, period, item) = (slot.resource, slot.period, slot.item);
        let (start, end) = (slot.start, slot.end);
        write!(&mut text, "m{resource},{period},i{item},{start},{end}\n").expect(rt, "memory");
    }
    text
}

// What is found of slots by their text.
fn told(rt: &impl Abort, alloc: Global, instance: &Instance, plan: &Plan, slots: &[Slot]) -> String
    requires fits { AllFit instance.now plan.now }
    requires feasible { IsFeasible instance.now (plan_of plan.now) }
{
    let text = rows(rt, alloc, slots);
    match read_schedule(alloc, instance, text.as_bytes()) {
        Err(fault) => fault.to_string(alloc).expect(rt, "memory"),
        Ok(slots) => match check_schedule(instance, plan, &slots) {
            Ok(()) => String::from_str(alloc, "accepted").expect(rt, "memory"),
            Err(broken) => broken.to_string(alloc).expect(rt, "memory"),
        },
    }
}

// A slot with one thing changed.
fn changed(words: &mut Lcg64Xsh32, slot: Slot) -> Slot {
    let mut slot = slot;
    match draw(words, 8) {
        0 => slot.item = draw(words, 4),
        1 => slot.period = draw(words, 4) + 1,
        2 => slot.resource = draw(words, 4) + 1,
        3 => slot.start = slot.start.saturating_add(1),
        4 => slot.end = slot.end.saturating_add(1),
        5 => {
            slot.start = slot.start.saturating_add(1);
            slot.end = slot.end.saturating_add(1);
        }
        6 => {
            slot.start = slot.start.saturating_sub(1);
            slot.end = slot.end.saturating_sub(1);
        }
        _ => {
            slot.end = slot.end.saturating_sub(slot.start);
            slot.start = 0;
        }
    }
    slot
}

// Puts a slot in some place.
fn put(rt: &impl Abort, words: &mut Lcg64Xsh32, list: &mut Vec<Slot>, slot: Slot) {
    let place = words.next_word() as usize;
    let count = list.len();
    if count == 0 {
        list.push(slot).expect(rt, "memory");
    } else {
        list.insert(place % count, slot).expect(rt, "memory");
    }
}

// The slots in some order. One in eight is changed, one in sixteen left out, and as many are there twice.
fn shuffled(rt: &impl Abort, alloc: Global, words: &mut Lcg64Xsh32, slots: &[Slot]) -> Vec<Slot> {
    let mut list = Vec::new(alloc);
    for slot in slots {
        match draw(words, 16) {
            0 => {
                put(rt, words, &mut list, *slot);
                put(rt, words, &mut list, *slot);
            }
            1 => {}
            2 | 3 => {
                let other = changed(words, *slot);
                put(rt, words, &mut list, other);
            }
            _ => put(rt, words, &mut list, *slot),
        }
    }
    list
}

// Adds what is said of slots.
fn add_told(
    rt: &impl Abort,
    alloc: Global,
    both: &mut Both,
    instance: &Instance,
    plan: &Plan,
    slots: &[Slot],
)
    requires fits { AllFit instance.now plan.now }
    requires feasible { IsFeasible instance.now (plan_of plan.now) }
{
    let found = told(rt, alloc, instance, plan, slots);
    let plain = told_plainly(rt, alloc, instance, plan, slots);
    write!(&mut both.found, "{found}\n").expect(rt, "memory");
    write!(&mut both.plain, "{plain}\n").expect(rt, "memory");
}

// Adds the schedule, what is said of it, and what is said of six changed ones.
fn add_schedules(
    rt: &impl Abort,
    alloc: Global,
    words: &mut Lcg64Xsh32,
    both: &mut Both,
    instance: &Instance,
    plan: &Plan,
)
    requires fits { AllFit instance.now plan.now }
    requires feasible { IsFeasible instance.now (plan_of plan.now) }
{
    let slots = schedule(alloc, instance, plan).expect(rt, "memory");
    add_bytes(
        rt,
        &mut both.found,
        write_schedule(alloc, instance, &slots).expect(rt, "memory"),
    );
    add_schedule(rt, &mut both.plain, instance, plan);
    add_told(rt, alloc, both, instance, plan, &slots);
    for _try in 0..6u32 {
        let others = shuffled(rt, alloc, words, &slots);
        add_told(rt, alloc, both, instance, plan, &others);
    }
}

// What is said of a plan.
fn compared(
    rt: &impl Abort,
    alloc: Global,
    words: &mut Lcg64Xsh32,
    instance: &Instance,
    plan: &Plan,
) -> Both
    requires fits { AllFit instance.now plan.now }
    requires feasible { IsFeasible instance.now (plan_of plan.now) }
{
    let mut both = Both {
        found: String::new(alloc),
        plain: String::new(alloc),
    };
    add_schedules(rt, alloc, words, &mut both, instance, plan);
    let pegs = peg(alloc, instance, plan).expect(rt, "memory");
    add_bytes(
        rt,
        &mut both.found,
        write_pegs(alloc, instance, &pegs).expect(rt, "memory"),
    );
    add_pegs(rt, alloc, &mut both.plain, instance, plan);
    both
}

// What is said of a random plan, if it is feasible.
fn drawn(rt: &impl Abort, alloc: Global, words: &mut Lcg64Xsh32) -> Option<Both> {
    let instance = draw_instance(rt, alloc, words);
    let (make, setup) = draw_choices(rt, alloc, words, &instance);
    if !make.fits(&instance) || !setup.fits(&instance) {
        panic!(rt; "another shape");
    }
    match complete(alloc, &instance, make, setup).expect(rt, "memory") {
        Some(plan) => Some(compared(rt, alloc, words, &instance, &plan)),
        None => None,
    }
}

// What is to be said of some plan.
const KINDS: [&str; 11] = [
    "accepted\n",
    "slot row 1\n",
    "rejected slot 1 row 2\n",
    "rejected slot 2 row 2\n",
    "rejected slot 3 row 2\n",
    "rejected slot 4 row 2\n",
    "rejected slot 5 resource 2 period 2 item 2\n",
    "i2,opening,use i1 2,",
    "i2,lot 1,use i3 2,",
    "i1,lot 2,demand 1,",
    "i3,lot 2,end,",
];

// Counts the plans of which each of them is said.
fn count_kinds(counts: &mut [u32; 11], said: &str) {
    for place in 0..11usize {
        if said.contains(KINDS[place]) {
            counts[place] = counts[place].saturating_add(1);
        }
    }
}

#[test]
fn what_is_found_is_as_the_definitions_say(rt: HostRuntime) {
    let alloc = rt.alloc();
    let mut words = Lcg64Xsh32::new(1, 54);
    let mut counts = [0u32; 11];
    for _try in 0..20_000u32 {
        if let Some(both) = drawn(&rt, alloc, &mut words) {
            assert_eq!(rt; both.found.as_str(), both.plain.as_str());
            count_kinds(&mut counts, both.plain.as_str());
        }
    }
    let is_rare = counts.iter().any(|count| *count < 5);
    assert!(rt; !is_rare, "{counts:?}");
}

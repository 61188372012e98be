ghost use Rattle.plan_rules.specs.Cells.{Fits};

use fixtures::{Item, MADE, Resource, instance, instance_alike};
use heur_setup_lps::{planned, plunged, walked};
use lot_model::Instance;
use plan_rules::{Grid, Planned};
use std::alloc::Global;
use std::process::Abort;
use work_clock::Deadline;

// The item of the shop on a resource of this capacity.
fn model(rt: &impl Abort, alloc: Global, capacity: i64) -> Instance {
    let machine = Resource {
        name: "m",
        capacity: &[capacity],
    };
    instance(alloc, 2, &[machine], &[MADE]).expect(rt, "an instance")
}

// This number for each item and period of an instance.
fn filled(rt: &impl Abort, alloc: Global, instance: &Instance, number: u64) -> Grid
    ensures { Fits instance.now result }
{
    Grid::filled(alloc, instance.items(), instance.periods(), number).expect(rt, "memory")
}

// What a plan costs, and 0 where there is none.
fn cost_of(found: &Option<Planned>) -> u128 {
    match found {
        Some(made) => made.cost,
        None => 0,
    }
}

// What a plan costs by the program where setups are between these numbers.
fn cost_between(rt: &impl Abort, alloc: Global, instance: &Instance, low: u64, high: u64) -> u128 {
    let low = filled(rt, alloc, instance, low);
    let high = filled(rt, alloc, instance, high);
    cost_of(&planned(alloc, instance, &low, &high, Deadline::none()).expect(rt, "memory"))
}

// What plans cost by the programs where each setup is 1, where it is 0 or 1, and where it is 0.
fn costs(rt: &impl Abort, alloc: Global, instance: &Instance) -> (u128, u128, u128) {
    let all = cost_between(rt, alloc, instance, 1, 1);
    let some = cost_between(rt, alloc, instance, 0, 1);
    let none = cost_between(rt, alloc, instance, 0, 0);
    (all, some, none)
}

// What a plan costs that is found by a plunge of so many nodes.
fn cost_by_plunge(rt: &impl Abort, alloc: Global, instance: &Instance, nodes: u32) -> u128 {
    let low = filled(rt, alloc, instance, 0);
    let high = filled(rt, alloc, instance, 1);
    cost_of(&plunged(alloc, instance, &low, &high, nodes, Deadline::none()).expect(rt, "memory"))
}

// Both periods make 5 units, of which 3 are held; a plunge finds no other plan, since there is none.
#[test]
fn programs_plan_the_quantities(rt: HostRuntime) {
    let alloc = rt.alloc();
    let instance = model(&rt, alloc, 6);
    assert_eq!(rt; costs(&rt, alloc, &instance), (23, 23, 0));
    assert_eq!(rt; cost_by_plunge(&rt, alloc, &instance, 10), 23);
}

// What the plan costs in which each setup is 1, and what a walk from it finds.
fn costs_of_walk(rt: &impl Abort, alloc: Global, instance: &Instance) -> (u128, u128) {
    let all = filled(rt, alloc, instance, 1);
    let found = planned(alloc, instance, &all, &all, Deadline::none())
        .expect(rt, "memory")
        .expect(rt, "no plan");
    let cheaper = walked(alloc, instance, &found, 1, 20, Deadline::none()).expect(rt, "memory");
    (found.cost, cost_of(&cheaper))
}

// Two setups cost 20. One setup costs 10, and 8 units are held.
#[test]
fn a_walk_leaves_a_setup_out(rt: HostRuntime) {
    let alloc = rt.alloc();
    let instance = model(&rt, alloc, 20);
    assert_eq!(rt; costs_of_walk(&rt, alloc, &instance), (20, 18));
}

// An item without a resource that is asked for one in each period.
const STEADY: Item<'static> = Item {
    demand: &[1],
    uses: &[],
    ..MADE
};

// Four items over 101 periods.
fn large(rt: &impl Abort, alloc: Global) -> Instance {
    instance_alike(alloc, 101, &[], 4, &STEADY).expect(rt, "an instance")
}

// Four items over 101 periods are more than 400, and the own-period plan is one.
#[test]
fn large_models_have_no_programs(rt: HostRuntime) {
    let alloc = rt.alloc();
    let instance = large(&rt, alloc);
    assert_eq!(rt; cost_between(&rt, alloc, &instance, 1, 1), 0);
}

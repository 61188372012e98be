ghost use Rattle.plan_rules.specs.Cells.{Fits};

use fixtures::{MADE, Resource, instance};
use heur_setup_walks::walked_setups;
use lot_model::Instance;
use plan_rules::{Grid, Planned};
use std::alloc::Global;
use std::process::Abort;
use work_clock::Deadline;

// A setup for each item and period of an instance.
fn all_setups(rt: &impl Abort, alloc: Global, instance: &Instance) -> Grid
    ensures { Fits instance.now result }
{
    Grid::filled(alloc, instance.items(), instance.periods(), 1).expect(rt, "memory")
}

// What a plan costs, and 0 where there is none.
fn cost_of(found: &Option<Planned>) -> u128 {
    match found {
        Some(made) => made.cost,
        None => 0,
    }
}

// What a walk over setups finds that begins with all of them.
fn cost_of_walk(rt: &impl Abort, alloc: Global, instance: &Instance) -> u128 {
    let all = all_setups(rt, alloc, instance);
    let found = walked_setups(alloc, instance, &all, 1, 50, Deadline::none()).expect(rt, "memory");
    cost_of(&found)
}

// Two setups cost 20. One setup costs 10, and 8 units are held.
#[test]
fn a_walk_by_programs_in_fixed_point_leaves_a_setup_out(rt: HostRuntime) {
    let alloc = rt.alloc();
    let machine = Resource {
        name: "m",
        capacity: &[20],
    };
    let instance = instance(alloc, 2, &[machine], &[MADE]).expect(&rt, "an instance");
    assert_eq!(rt; cost_of_walk(&rt, alloc, &instance), 18);
}

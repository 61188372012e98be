use fixtures::{Item, PLAIN, instance, instance_alike};
use lot_model::{Instance, is_uncoupled};
use lot_sizing::limits::{MAX_ITEMS, MAX_PERIODS};
use std::alloc::Global;
use std::process::Abort;
use uncoupled::{ItemPlans, PlannedItems, plan_items};

// An item that is asked for 4 and 6, with setup costs 100 and 20 and hold cost 1.
const FIRST: Item<'static> = Item {
    demand: &[4, 6],
    setup_cost: &[100, 20],
    hold_cost: &[1],
    ..PLAIN
};

// Another one.
const SECOND: Item<'static> = Item { name: "B", ..FIRST };

// The plans of an uncoupled instance where all items have room.
fn plans_of(rt: &impl Abort, alloc: Global, instance: &Instance) -> ItemPlans {
    if !is_uncoupled(instance) {
        panic!(rt; "not uncoupled");
    }
    match plan_items(alloc, instance).expect(rt, "memory") {
        PlannedItems::Best(plans) => plans,
        PlannedItems::NoRoom(_) => panic!(rt; "no room"),
    }
}

// The plans of A and of another item.
fn plans_with(rt: &impl Abort, alloc: Global, other: Item) -> ItemPlans {
    let instance = instance(alloc, 2, &[], &[FIRST, other]).expect(rt, "an instance");
    plans_of(rt, alloc, &instance)
}

// How much is made of the first of two items in the first of two periods, and of the second one in the second.
fn made(rt: &impl Abort, plans: &ItemPlans) -> (u64, u64) {
    let make = &plans.plan.make;
    if (make.items(), make.periods()) != (2, 2) {
        panic!(rt; "another instance");
    }
    (make.get(1, 1), make.get(2, 2))
}

// Whether these are the steps and the costs of owing of an item, which stands at this place from 0.
fn are_potentials(plans: &ItemPlans, place: usize, steps: &[u128], back: &[u64]) -> (bool, bool) {
    match plans.potentials.get(place) {
        Some(found) => (
            found.steps.as_slice() == steps,
            found.back.as_slice() == back,
        ),
        None => (false, false),
    }
}

#[test]
fn items_are_planned_apart(rt: HostRuntime) {
    let alloc = rt.alloc();
    let late = Item {
        backlog_cost: Some(&[2]),
        ..SECOND
    };
    let plans = plans_with(&rt, alloc, late);
    // All of A in the first period, and all of B in the second.
    assert_eq!(rt; (plans.cost, plans.potentials.len()), (106 + 28, 2));
    assert_eq!(rt; made(&rt, &plans), (10, 10));
    let first = are_potentials(&plans, 0, &[100, 106], &[0, 0]);
    let second = are_potentials(&plans, 1, &[28, 28], &[2, 2]);
    assert_eq!(rt; (first, second), ((true, true), (true, true)));
}

// Whether these are the steps of an item, which stands at this place from 0.
fn are_steps(plans: &ItemPlans, place: usize, steps: &[u128]) -> bool {
    match plans.potentials.get(place) {
        Some(found) => found.steps.as_slice() == steps,
        None => false,
    }
}

#[test]
fn what_is_left_of_a_stock_is_held(rt: HostRuntime) {
    let alloc = rt.alloc();
    let held = Item {
        opening: 5,
        ..SECOND
    };
    let plans = plans_with(&rt, alloc, held);
    // One unit of B is left in the first period, and 5 are made in the second.
    assert_eq!(rt; (plans.cost, plans.potentials.len()), (106 + 20 + 1, 2));
    assert!(rt; are_steps(&plans, 1, &[20]));
}

// The first item without room of two that leave 6 of their opening stocks, with these largest end stocks.
fn without_room(rt: &impl Abort, alloc: Global, first: i64, second: i64) -> Option<u32> {
    let one = Item {
        opening: 16,
        end_max: Some(first),
        ..FIRST
    };
    let other = Item {
        opening: 16,
        end_max: Some(second),
        ..SECOND
    };
    let instance = instance(alloc, 2, &[], &[one, other]).expect(rt, "an instance");
    if !is_uncoupled(&instance) {
        panic!(rt; "not uncoupled");
    }
    match plan_items(alloc, &instance).expect(rt, "memory") {
        PlannedItems::Best(_) => None,
        PlannedItems::NoRoom(item) => Some(item),
    }
}

#[test]
fn a_stock_without_room_has_no_plan(rt: HostRuntime) {
    let alloc = rt.alloc();
    for (first, second, want) in [
        (6i64, 6i64, None),
        (6, 5, Some(2)),
        (5, 6, Some(1)),
        (5, 5, Some(1)),
    ] {
        assert_eq!(rt; without_room(&rt, alloc, first, second), want);
    }
}

// As many items and periods as there may be. One unit is asked for in each period, and a setup costs 5.
fn largest(rt: &impl Abort, alloc: Global) -> Instance {
    let item = Item {
        demand: &[1],
        setup_cost: &[5],
        ..PLAIN
    };
    instance_alike(alloc, MAX_PERIODS, &[], MAX_ITEMS, &item).expect(rt, "an instance")
}

#[test]
fn the_most_items_are_planned(rt: HostRuntime) {
    let alloc = rt.alloc();
    let instance = largest(&rt, alloc);
    let plans = plans_of(&rt, alloc, &instance);
    // One setup of each item, in the first period.
    assert_eq!(rt; (plans.cost, plans.potentials.len()), (200, 40));
}

// The least cost of one item, by the recursion and by the plain one.
fn both_costs(rt: &impl Abort, alloc: Global, instance: &Instance) -> (u128, u128) {
    if instance.items() != 1 || !is_uncoupled(instance) {
        panic!(rt; "not one item by itself");
    }
    let single = echelon::single_of(alloc, instance, 1).expect(rt, "memory");
    let plain = wagner_whitin::plain_least_cost(alloc, &single).expect(rt, "memory");
    let found = backlog_dp::solve(alloc, &single).expect(rt, "memory");
    (found.cost, plain)
}

// The least cost of an item over three periods, by the recursion and by the plain one. Its numbers are its demands, and then what a
// unit costs that is owed.
fn least_costs(
    rt: &impl Abort,
    alloc: Global,
    numbers: [i64; 4],
    opening: i64,
    end_min: i64,
) -> (u128, u128) {
    let only = Item {
        demand: &numbers[..3],
        unit_cost: &[1],
        setup_cost: &[12, 10, 12],
        hold_cost: &[1, 2, 1],
        backlog_cost: Some(&numbers[3..]),
        opening,
        end_min,
        ..PLAIN
    };
    let instance = instance(alloc, 3, &[], &[only]).expect(rt, "an instance");
    both_costs(rt, alloc, &instance)
}

#[test]
fn both_recursions_give_the_same_cost(rt: HostRuntime) {
    let alloc = rt.alloc();
    for (numbers, opening, end_min, want) in [
        ([5i64, 5, 5, 2], 0i64, 0i64, 44u128),
        ([5, 5, 5, 0], 0, 0, 27),
        ([0, 0, 9, 1], 0, 0, 21),
        ([9, 0, 0, 3], 4, 2, 25),
        ([0, 0, 0, 1], 7, 0, 0),
    ] {
        let costs = least_costs(&rt, alloc, numbers, opening, end_min);
        assert_eq!(rt; costs, (want, want));
    }
}

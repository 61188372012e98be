use fixtures::{Item, PLAIN, Resource, instance, instance_alike};
use lp_bounds::{BoundSays, base_bound};
use std::alloc::Global;
use std::process::Abort;

// A resource with this time in each period.
fn machine(capacity: &[i64]) -> Resource {
    Resource {
        name: "m",
        capacity,
    }
}

// What is known of the base bound of a model of one item.
fn of_one(
    rt: &impl Abort,
    alloc: Global,
    periods: u32,
    resources: &[Resource],
    item: Item,
) -> BoundSays {
    let instance = instance(alloc, periods, resources, &[item]).expect(rt, "an instance");
    base_bound(alloc, &instance).expect(rt, "memory")
}

// The least cost is 138/11.
#[test]
fn a_least_cost_is_rounded_up(rt: HostRuntime) {
    let only = Item {
        demand: &[2, 8],
        setup_cost: &[10],
        hold_cost: &[1],
        uses: &[("m", 1, 1)],
        ..PLAIN
    };
    let says = of_one(&rt, rt.alloc(), 2, &[machine(&[6])], only);
    assert!(rt; says == BoundSays::Bound(13));
}

#[test]
fn a_whole_cost_is_as_it_is(rt: HostRuntime) {
    let only = Item {
        demand: &[10],
        unit_cost: &[2],
        setup_cost: &[5],
        ..PLAIN
    };
    let says = of_one(&rt, rt.alloc(), 1, &[], only);
    assert!(rt; says == BoundSays::Bound(25));
}

#[test]
fn no_point_where_the_time_is_too_short(rt: HostRuntime) {
    let only = Item {
        demand: &[10],
        uses: &[("m", 1, 0)],
        ..PLAIN
    };
    let says = of_one(&rt, rt.alloc(), 1, &[machine(&[9])], only);
    assert!(rt; says == BoundSays::Empty);
}

// What is known of 40 items with a demand of 5 in each of 60 periods.
fn of_forty(rt: &impl Abort, alloc: Global) -> BoundSays {
    let item = Item {
        demand: &[5],
        unit_cost: &[1],
        setup_cost: &[10],
        hold_cost: &[1],
        uses: &[("m", 1, 0)],
        ..PLAIN
    };
    let instance = instance_alike(alloc, 60, &[machine(&[1000])], 40, &item).expect(
        rt,
        "an instance",
    );
    base_bound(alloc, &instance).expect(rt, "memory")
}

// 7,200 columns, and 9,740 rows: two for each of 2,400 balances, 2,400 links, 60 capacities, 80 of last stocks and 2,400
// tops.
#[test]
fn a_large_tableau_is_skipped(rt: HostRuntime) {
    let says = of_forty(&rt, rt.alloc());
    assert!(rt; says == BoundSays::Skipped { cells: 70_144_941 });
}

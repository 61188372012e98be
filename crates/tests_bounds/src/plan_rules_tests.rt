use fixtures::{Item, PLAIN, Resource, instance, instance_alike};
use lot_model::Instance;
use lot_sizing::limits::{MAX_ITEMS, MAX_PERIODS};
use plan_rules::{
    Broken, CostParts, Grid, Plan, arriving, complete, complete_at_cost, cost_parts, judge,
    time_used, used_up,
};
use std::alloc::Global;
use std::process::Abort;

// A grid of sevens, but for one place.
fn sevens(rt: &impl Abort, alloc: Global) -> Grid {
    let mut grid = Grid::filled(alloc, 2, 3, 7).expect(rt, "memory");
    grid.set(2, 1, u64::MAX);
    grid
}

// The number of a grid at a place that it has.
fn at(grid: &Grid, item: u32, period: u32) -> Option<u64> {
    if item < 1 || item > grid.items() || period < 1 || period > grid.periods() {
        return None;
    }
    Some(grid.get(item, period))
}

#[test]
fn a_grid_keeps_each_number(rt: HostRuntime) {
    let grid = sevens(&rt, rt.alloc());
    let sizes = (grid.items(), grid.periods(), grid.cells().len());
    assert_eq!(rt; sizes, (2, 3, 6));
    for (item, period, number) in [
        (2u32, 1u32, u64::MAX),
        (1, 1, 7),
        (1, 3, 7),
        (2, 2, 7),
        (2, 3, 7),
    ] {
        assert_eq!(rt; at(&grid, item, period), Some(number), "{item} {period}");
    }
}

#[test]
fn a_grid_differs_by_one_number(rt: HostRuntime) {
    let alloc = rt.alloc();
    let grid = sevens(&rt, alloc);
    let other = Grid::filled(alloc, 2, 3, 7).expect(&rt, "memory");
    assert!(rt; grid != other);
}

// An item with a setup of 5, 2 a unit, and 1 a unit in stock.
const COSTED: Item<'static> = Item {
    unit_cost: &[2],
    setup_cost: &[5],
    hold_cost: &[1],
    ..PLAIN
};

// Ten loaves on one day.
fn loaves(rt: &impl Abort, alloc: Global) -> Instance {
    let loaf = Item {
        name: "loaf",
        demand: &[10],
        ..COSTED
    };
    instance(alloc, 1, &[], &[loaf]).expect(rt, "an instance")
}

// A plan with this quantity, setup, stock and backlog throughout.
fn plan(rt: &impl Abort, alloc: Global, items: u32, periods: u32, amounts: [u64; 4]) -> Plan {
    let [make, setup, stock, backlog] = amounts;
    Plan {
        make: Grid::filled(alloc, items, periods, make).expect(rt, "memory"),
        setup: Grid::filled(alloc, items, periods, setup).expect(rt, "memory"),
        stock: Grid::filled(alloc, items, periods, stock).expect(rt, "memory"),
        backlog: Grid::filled(alloc, items, periods, backlog).expect(rt, "memory"),
    }
}

// What is judged of a plan.
fn judged(rt: &impl Abort, alloc: Global, instance: &Instance, plan: &Plan) -> String {
    match judge(instance, plan) {
        Ok(cost) => cost.to_string(alloc).expect(rt, "memory"),
        Err(broken) => broken.to_string(alloc).expect(rt, "memory"),
    }
}

// What is judged of a plan of one item with these amounts throughout.
fn judged_of(
    rt: &impl Abort,
    alloc: Global,
    instance: &Instance,
    periods: u32,
    amounts: [u64; 4],
) -> String {
    let plan = plan(rt, alloc, 1, periods, amounts);
    judged(rt, alloc, instance, &plan)
}

#[test]
fn plans_are_judged(rt: HostRuntime) {
    let alloc = rt.alloc();
    let instance = loaves(&rt, alloc);
    for (periods, amounts, want) in [
        (1u32, [10u64, 1, 0, 0], "25"),
        (2, [10, 1, 0, 0], "broken 1"),
        (1, [10, 2, 0, 0], "broken 2 item 1 period 1"),
        (1, [9, 1, 0, 0], "broken 3 item 1 period 1 left 9 right 10"),
        (
            1,
            [9, 1, 0, u64::MAX],
            "broken 3 item 1 period 1 left 9 right -18446744073709551605",
        ),
        (1, [10, 0, 0, 0], "broken 4 item 1 period 1"),
        (1, [11, 1, 1, 0], "broken 6 item 1"),
        (1, [9, 1, 0, 1], "broken 7 item 1 period 1"),
    ] {
        let text = judged_of(&rt, alloc, &instance, periods, amounts);
        assert_eq!(rt; text.as_str(), want);
    }
}

#[test]
fn text_of_a_broken_capacity(rt: HostRuntime) {
    let capacity = Broken::Capacity {
        resource: 2,
        period: 3,
        used: 7,
    };
    let text = capacity.to_string(rt.alloc()).expect(&rt, "memory");
    assert_eq!(rt; text.as_str(), "broken 5 resource 2 period 3 used 7");
}

// What the plan costs that completes this quantity throughout, if there is one.
fn completed(rt: &impl Abort, alloc: Global, instance: &Instance, quantity: u64) -> Option<u128> {
    let (items, periods) = (instance.items(), instance.periods());
    let make = Grid::filled(alloc, items, periods, quantity).expect(rt, "memory");
    let setup = Grid::filled(alloc, items, periods, 1).expect(rt, "memory");
    match complete(alloc, instance, make, setup).expect(rt, "memory") {
        Some(plan) => Some(judge(instance, &plan).expect(rt, "a feasible plan")),
        None => None,
    }
}

#[test]
fn plans_are_completed(rt: HostRuntime) {
    let alloc = rt.alloc();
    let instance = loaves(&rt, alloc);
    for (quantity, cost) in [
        (10u64, Some(25u128)),
        (9, None),
        (11, None),
        (u64::MAX, None),
    ] {
        let found = completed(&rt, alloc, &instance, quantity);
        assert_eq!(rt; found, cost, "{quantity}");
    }
}

// Three tables of four legs each, which are sawn: a leg takes 1 of 25 minutes, and setting up the saw
// takes 10.
fn tables(rt: &impl Abort, alloc: Global) -> Instance {
    let table = Item {
        name: "table",
        demand: &[3],
        needs: &[("leg", 4)],
        ..COSTED
    };
    let leg = Item {
        name: "leg",
        uses: &[("saw", 1, 10)],
        ..COSTED
    };
    let saw = Resource {
        name: "saw",
        capacity: &[25],
    };
    instance(alloc, 1, &[saw], &[table, leg]).expect(rt, "an instance")
}

// What three tables and twelve legs cost, how many legs arrive and are used up, the time on the saw, and the
// parts of the cost of legs.
fn sums_of(
    rt: &impl Abort,
    alloc: Global,
    instance: &Instance,
) -> (u128, (u64, u128, u128), CostParts) {
    if instance.items() != 2 || instance.periods() != 1 {
        panic!(rt; "not two items over one period");
    }
    let mut make = Grid::filled(alloc, 2, 1, 3).expect(rt, "memory");
    make.set(2, 1, 12);
    let setup = Grid::filled(alloc, 2, 1, 1).expect(rt, "memory");
    let planned = complete_at_cost(alloc, instance, make, setup)
        .expect(rt, "memory")
        .expect(rt, "no plan");
    let arriving = arriving(instance, &planned.plan.make, 2, 1);
    let used_up = used_up(instance, &planned.plan.make, 2, 1);
    let time = time_used(instance, &planned.plan, 1, 1);
    let parts = cost_parts(instance, &planned.plan, 2, 1);
    (planned.cost, (arriving, used_up, time), parts)
}

#[test]
fn sums_of_a_plan(rt: HostRuntime) {
    let alloc = rt.alloc();
    let instance = tables(&rt, alloc);
    let parts = CostParts {
        unit: 24,
        setup: 5,
        hold: 0,
        backlog: 0,
    };
    assert_eq!(rt; sums_of(&rt, alloc, &instance), (40, (12, 12, 22), parts));
}

// As many items and periods as there may be, of which one unit is asked for in each period.
fn largest(rt: &impl Abort, alloc: Global) -> Instance {
    let item = Item {
        demand: &[1],
        ..COSTED
    };
    instance_alike(alloc, MAX_PERIODS, &[], MAX_ITEMS, &item).expect(rt, "an instance")
}

// What it costs to make a unit of each item in each period, if that is a plan.
fn cost_of_ones(rt: &impl Abort, alloc: Global, instance: &Instance) -> Option<u128> {
    let (items, periods) = (instance.items(), instance.periods());
    let make = Grid::filled(alloc, items, periods, 1).expect(rt, "memory");
    let setup = Grid::filled(alloc, items, periods, 1).expect(rt, "memory");
    match complete_at_cost(alloc, instance, make, setup).expect(rt, "memory") {
        Some(found) => Some(found.cost),
        None => None,
    }
}

// Whether there is a plan with a unit of each item in each period, but for the last one.
fn has_plan_without_the_last(rt: &impl Abort, alloc: Global, instance: &Instance) -> bool {
    let (items, periods) = (instance.items(), instance.periods());
    let mut make = Grid::filled(alloc, items, periods, 1).expect(rt, "memory");
    make.set(items, periods, 0);
    let setup = Grid::filled(alloc, items, periods, 1).expect(rt, "memory");
    complete(alloc, instance, make, setup)
        .expect(rt, "memory")
        .is_some()
}

// A plan that meets each demand where it is asked for, but for a stock at the very end.
fn with_a_last_stock(rt: &impl Abort, alloc: Global, instance: &Instance) -> Plan {
    let (items, periods) = (instance.items(), instance.periods());
    let mut stock = Grid::filled(alloc, items, periods, 0).expect(rt, "memory");
    stock.set(items, periods, 1);
    Plan {
        make: Grid::filled(alloc, items, periods, 1).expect(rt, "memory"),
        setup: Grid::filled(alloc, items, periods, 1).expect(rt, "memory"),
        stock,
        backlog: Grid::filled(alloc, items, periods, 0).expect(rt, "memory"),
    }
}

// What is judged of it.
fn judged_with_a_last_stock(rt: &impl Abort, alloc: Global, instance: &Instance) -> String {
    let plan = with_a_last_stock(rt, alloc, instance);
    judged(rt, alloc, instance, &plan)
}

// It is completed and judged, and its last cell rules out a plan.
#[test]
fn the_largest_plan_is_judged_to_its_last_cell(rt: HostRuntime) {
    let alloc = rt.alloc();
    let instance = largest(&rt, alloc);
    let cost = cost_of_ones(&rt, alloc, &instance);
    let has_plan = has_plan_without_the_last(&rt, alloc, &instance);
    // 40 items in 120 periods, each for 5 and 2.
    assert_eq!(rt; (cost, has_plan), (Some(33600), false));
    let text = judged_with_a_last_stock(&rt, alloc, &instance);
    assert_eq!(rt; text.as_str(), "broken 3 item 40 period 120 left 1 right 2");
}

// One unit of time on each of as many resources as there may be, for each unit that is made.
const ALL_USES: &[(&str, i64, i64)] = &[
    ("r1", 1, 0),
    ("r2", 1, 0),
    ("r3", 1, 0),
    ("r4", 1, 0),
    ("r5", 1, 0),
    ("r6", 1, 0),
    ("r7", 1, 0),
    ("r8", 1, 0),
    ("r9", 1, 0),
    ("r10", 1, 0),
    ("r11", 1, 0),
    ("r12", 1, 0),
    ("r13", 1, 0),
    ("r14", 1, 0),
    ("r15", 1, 0),
    ("r16", 1, 0),
    ("r17", 1, 0),
    ("r18", 1, 0),
    ("r19", 1, 0),
    ("r20", 1, 0),
];

// A resource with time for a unit of each item in each period.
fn enough(name: &str) -> Resource {
    Resource {
        name,
        capacity: &[40],
    }
}

// As many items, periods and resources as there may be, with this time in the last place of all.
fn largest_with_resources(rt: &impl Abort, alloc: Global, last: i64) -> Instance {
    let mut capacity = [40i64; 120];
    capacity[119] = last;
    let item = Item {
        demand: &[1],
        uses: ALL_USES,
        ..COSTED
    };
    let mut end = enough("r20");
    end.capacity = &capacity;
    let resources = [
        enough("r1"),
        enough("r2"),
        enough("r3"),
        enough("r4"),
        enough("r5"),
        enough("r6"),
        enough("r7"),
        enough("r8"),
        enough("r9"),
        enough("r10"),
        enough("r11"),
        enough("r12"),
        enough("r13"),
        enough("r14"),
        enough("r15"),
        enough("r16"),
        enough("r17"),
        enough("r18"),
        enough("r19"),
        end,
    ];
    instance_alike(alloc, MAX_PERIODS, &resources, MAX_ITEMS, &item).expect(rt, "an instance")
}

// What is judged of the plan that makes each unit where it is asked for.
fn judged_unit_by_unit(rt: &impl Abort, alloc: Global, instance: &Instance) -> String {
    let plan = plan(
        rt,
        alloc,
        instance.items(),
        instance.periods(),
        [1, 1, 0, 0],
    );
    judged(rt, alloc, instance, &plan)
}

#[test]
fn the_last_resource_of_the_largest_model_is_judged(rt: HostRuntime) {
    let alloc = rt.alloc();
    for (last, want) in [
        (40i64, "33600"),
        (39, "broken 5 resource 20 period 120 used 40"),
    ] {
        let instance = largest_with_resources(&rt, alloc, last);
        let text = judged_unit_by_unit(&rt, alloc, &instance);
        assert_eq!(rt; text.as_str(), want);
    }
}

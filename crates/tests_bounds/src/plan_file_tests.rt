use fixtures::{PLAIN, instance, instance_alike};
use lot_model::Instance;
use plan_file::{NumberField, PlanFault, read_plan, write_plan};
use plan_rules::{Grid, Plan};
use std::alloc::Global;
use std::process::Abort;

// An item over two periods.
fn short(rt: &impl Abort, alloc: Global) -> Instance {
    instance(alloc, 2, &[], &[PLAIN]).expect(rt, "an instance")
}

// What is written of a plan with this backlog throughout.
fn written(rt: &impl Abort, alloc: Global, instance: &Instance, backlog: u64) -> Vec<u8> {
    let (items, periods) = (instance.items(), instance.periods());
    let plan = Plan {
        make: Grid::filled(alloc, items, periods, u64::MAX).expect(rt, "memory"),
        setup: Grid::filled(alloc, items, periods, 1).expect(rt, "memory"),
        stock: Grid::filled(alloc, items, periods, 10).expect(rt, "memory"),
        backlog: Grid::filled(alloc, items, periods, backlog).expect(rt, "memory"),
    };
    write_plan(alloc, instance, &plan).expect(rt, "memory")
}

// The plan that is read from what is written.
fn read_again(rt: &impl Abort, alloc: Global, instance: &Instance, backlog: u64) -> Plan {
    let bytes = written(rt, alloc, instance, backlog);
    read_plan(alloc, instance, bytes.as_slice()).expect(rt, "a plan")
}

// How many items and periods a grid has, and its number at a place that it has.
fn at(grid: &Grid, item: u32, period: u32) -> (u32, u32, Option<u64>) {
    let (items, periods) = (grid.items(), grid.periods());
    if item < 1 || item > items || period < 1 || period > periods {
        return (items, periods, None);
    }
    (items, periods, Some(grid.get(item, period)))
}

#[test]
fn a_plan_that_is_written_is_read_again(rt: HostRuntime) {
    let alloc = rt.alloc();
    let instance = short(&rt, alloc);
    let read = read_again(&rt, alloc, &instance, 0);
    assert_eq!(rt;
        (at(&read.make, 1, 2), at(&read.stock, 1, 1)),
        ((1, 2, Some(u64::MAX)), (1, 2, Some(10)))
    );
}

// Forty items over 120 periods.
fn long(rt: &impl Abort, alloc: Global) -> Instance {
    instance_alike(alloc, 120, &[], 40, &PLAIN).expect(rt, "an instance")
}

// Why what is written isn't read without its last two bytes.
fn fault_of_the_end(rt: &impl Abort, alloc: Global, instance: &Instance) -> Option<PlanFault> {
    let mut bytes = written(rt, alloc, instance, 7);
    bytes.pop();
    bytes.pop();
    read_plan(alloc, instance, bytes.as_slice()).err()
}

// At the limits: 4,800 records are written and read again, and refused at the last one without their end.
#[test]
fn the_longest_plan_is_read_again(rt: HostRuntime) {
    let alloc = rt.alloc();
    let instance = long(&rt, alloc);
    let read = read_again(&rt, alloc, &instance, 7);
    assert_eq!(rt; at(&read.backlog, 40, 120), (40, 120, Some(7)));
    assert_eq!(rt;
        fault_of_the_end(&rt, alloc, &instance),
        Some(PlanFault::Number(4_800, NumberField::Backlog))
    );
}

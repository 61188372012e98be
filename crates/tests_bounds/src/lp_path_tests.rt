use fixtures::shop;
use lin_rows::{Bound, Column};
use lp_bounds::{PathSays, path_relaxation};
use std::alloc::Global;
use std::process::Abort;

// The number that is said, and None where no point meets the rows and the bounds.
fn number_of(rt: &impl Abort, says: PathSays) -> Option<u128> {
    match says {
        PathSays::AtLeast { bound, .. } => Some(bound),
        PathSays::NoPoint { .. } => None,
        PathSays::Exempt(_) => panic!(rt; "exempt"),
    }
}

// What is said where the setups of both periods have bounds, each at most or at least a number.
fn with_setups(
    rt: &impl Abort,
    alloc: Global,
    first: (bool, u64),
    second: (bool, u64),
) -> Option<u128> {
    let instance = shop(alloc).expect(rt, "an instance");
    if instance.items() < 1 || instance.periods() < 2 {
        panic!(rt; "no setup");
    }
    let path = [
        Bound {
            column: Column::Y { item: 1, period: 1 },
            most: first.0,
            number: first.1,
        },
        Bound {
            column: Column::Y { item: 1, period: 2 },
            most: second.0,
            number: second.1,
        },
    ];
    number_of(
        rt,
        path_relaxation(alloc, &instance, &path).expect(rt, "memory"),
    )
}

// The least cost is 138/11: 50/11 units are made in the first period and 60/11 in the second.
#[test]
fn a_least_cost_is_rounded_up(rt: HostRuntime) {
    let alloc = rt.alloc();
    let instance = shop(alloc).expect(&rt, "an instance");
    let says = path_relaxation(alloc, &instance, &[]).expect(&rt, "memory");
    assert!(rt; number_of(&rt, says) == Some(13));
}

// With a whole setup in the second period 5 units are made there, and 5 in the first with half a setup; with two whole
// setups it costs 5 more.
#[test]
fn setups_of_the_path_are_paid(rt: HostRuntime) {
    let alloc = rt.alloc();
    assert!(rt; with_setups(&rt, alloc, (true, 1), (false, 1)) == Some(18));
    assert!(rt; with_setups(&rt, alloc, (false, 1), (false, 1)) == Some(23));
}

// The demand of the first period is of units that are made in it.
#[test]
fn no_point_without_a_setup(rt: HostRuntime) {
    let alloc = rt.alloc();
    assert!(rt; with_setups(&rt, alloc, (true, 0), (true, 1)) == None);
    assert!(rt; with_setups(&rt, alloc, (true, 0), (true, 0)) == None);
}

ghost use Rattle.cert_trees.specs.Ranges.{IsChoice};

use cert_checker::{CheckFault, Rejected, Why, leaf_bound};
use cert_meaning::LeafSays;
use cert_trees::branch_range;
use certificate::{Leaf, Part};
use fixtures::shop;
use lin_rows::{Bound, Column, RowName};
use lot_model::Instance;
use std::alloc::Global;
use std::process::Abort;

// A bound on a quantity or a setup of the instance.
fn bound(rt: &impl Abort, instance: &Instance, column: Column, most: bool, number: u64) -> Bound
    ensures { IsChoice instance.now result.column }
{
    branch_range(instance, &[], column).expect(rt, "no such column");
    Bound {
        column,
        most,
        number,
    }
}

fn made(period: u32) -> Column {
    Column::X { item: 1, period }
}

fn setup(period: u32) -> Column {
    Column::Y { item: 1, period }
}

fn part(row: RowName, times: i128) -> Part {
    Part { row, times }
}

fn refused(line: u64, why: Why) -> Result<LeafSays, CheckFault> {
    Err(CheckFault::Rejected(Rejected { line, why }))
}

#[test]
fn no_plan_without_the_first_setup(rt: HostRuntime) {
    let alloc = rt.alloc();
    let instance = shop(alloc).expect(&rt, "an instance");
    let path = [bound(&rt, &instance, setup(1), true, 0)];
    let parts = vec![in alloc;
        part(RowName::Link(1, 1), 1),
        part(RowName::Path(1), 10),
        part(RowName::Balance(1, 1), 1),
    ]
    .expect(&rt, "memory");
    let leaf = Leaf::Farkas { parts };
    let says = leaf_bound(alloc, &instance, &[], &path, &leaf, 4);
    assert_eq!(rt; says, Ok(LeafSays::NoPlan));
}

// What both setups are worth, where the bound on the second is taken so many times.
fn says_of_both_setups(
    rt: &impl Abort,
    alloc: Global,
    times: i128,
) -> Result<LeafSays, CheckFault> {
    let instance = shop(alloc).expect(rt, "an instance");
    let path = [
        bound(rt, &instance, setup(1), false, 1),
        bound(rt, &instance, setup(2), false, 1),
    ];
    let parts = vec![in alloc;
        part(RowName::Balance(1, 2), 1),
        part(RowName::Capacity(1, 2), 1),
        part(RowName::Path(1), 10),
        part(RowName::Path(2), times),
    ]
    .expect(rt, "memory");
    let leaf = Leaf::Linear { den: 1, parts };
    leaf_bound(alloc, &instance, &[], &path, &leaf, 4)
}

#[test]
fn a_cost_with_both_setups(rt: HostRuntime) {
    let alloc = rt.alloc();
    assert_eq!(rt;
        says_of_both_setups(&rt, alloc, 11),
        Ok(LeafSays::AtLeast(23))
    );
    assert_eq!(rt;
        says_of_both_setups(&rt, alloc, 12),
        refused(4, Why::Column(setup(2)))
    );
}

// What is said of a leaf with this part beside one that is taken no times.
fn says_of_part(
    rt: &impl Abort,
    alloc: Global,
    row: RowName,
    times: i128,
) -> Result<LeafSays, CheckFault> {
    let instance = shop(alloc).expect(rt, "an instance");
    let parts = vec![in alloc; part(RowName::Balance(1, 2), 0), part(row, times)].expect(
        rt, "memory",
    );
    let leaf = Leaf::Farkas { parts };
    leaf_bound(alloc, &instance, &[], &[], &leaf, 4)
}

#[test]
fn parts_are_refused_on_their_lines(rt: HostRuntime) {
    let alloc = rt.alloc();
    for (row, times, says) in [
        (RowName::Capacity(1, 2), -1, refused(6, Why::Sign)),
        (RowName::Link(1, 3), 1, refused(6, Why::Range)),
        (RowName::Path(1), -1, refused(6, Why::Range)),
        (RowName::Balance(1, 2), i128::MAX, refused(4, Why::TooLarge)),
        (RowName::Top(1, 1), 1, refused(4, Why::Short { says: 0 })),
    ] {
        assert_eq!(rt; says_of_part(&rt, alloc, row, times), says);
    }
}

// What is said of the point at which so much is made, with both setups.
fn says_of_point(
    rt: &impl Abort,
    alloc: Global,
    first: u64,
    second: u64,
) -> Result<LeafSays, CheckFault> {
    let instance = shop(alloc).expect(rt, "an instance");
    let path = [
        bound(rt, &instance, made(1), false, first),
        bound(rt, &instance, made(1), true, first),
        bound(rt, &instance, made(2), false, second),
        bound(rt, &instance, made(2), true, second),
        bound(rt, &instance, setup(1), false, 1),
        bound(rt, &instance, setup(2), false, 1),
    ];
    leaf_bound(alloc, &instance, &[], &path, &Leaf::Point, 4)
}

#[test]
fn a_point_has_the_least_cost_of_its_plans(rt: HostRuntime) {
    let alloc = rt.alloc();
    assert_eq!(rt; says_of_point(&rt, alloc, 5, 5), Ok(LeafSays::AtLeast(23)));
    assert_eq!(rt; says_of_point(&rt, alloc, 6, 4), Ok(LeafSays::NoPlan));
}

#[test]
fn a_point_has_one_value_each(rt: HostRuntime) {
    let alloc = rt.alloc();
    let instance = shop(alloc).expect(&rt, "an instance");
    let found = leaf_bound(alloc, &instance, &[], &[], &Leaf::Point, 4);
    assert_eq!(rt; found, refused(4, Why::NotPoint));
}

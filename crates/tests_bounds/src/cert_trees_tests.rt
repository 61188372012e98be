use cert_trees::{branch_range, is_split};
use fixtures::{Item, PLAIN, instance};
use lin_rows::{Bound, Column};
use lot_model::Instance;
use std::alloc::Global;
use std::process::Abort;

// One item with demands 2 and 8 and nothing in stock: its largest total is 10.
fn one_item(rt: &impl Abort, alloc: Global) -> Instance {
    let item = Item {
        demand: &[2, 8],
        unit_cost: &[1],
        setup_cost: &[5],
        hold_cost: &[1],
        end_max: Some(0),
        ..PLAIN
    };
    instance(alloc, 2, &[], &[item]).expect(rt, "an instance")
}

// What is made of the item in a period.
fn made(period: u32) -> Column {
    Column::X { item: 1, period }
}

// A bound on what is made in the first period.
fn bound(most: bool, number: u64) -> Bound {
    Bound {
        column: made(1),
        most,
        number,
    }
}

// A quantity is up to the largest total, and within the bounds of the path; only quantities and setups have ranges.
#[test]
fn ranges_of_columns(rt: HostRuntime) {
    let instance = one_item(&rt, rt.alloc());
    let path = [bound(true, 4), bound(false, 2)];
    for (path, column, range) in [
        (&path[..0], made(1), Some((0u64, 10u64))),
        (&path[..0], Column::Y { item: 1, period: 2 }, Some((0, 1))),
        (&path[..1], made(1), Some((0, 4))),
        (&path[..], made(1), Some((2, 4))),
        (&path[..], made(2), Some((0, 10))),
        (&path[..0], Column::S { item: 1, period: 1 }, None),
        (&path[..0], Column::R { item: 1, period: 1 }, None),
        (&path[..0], Column::X { item: 2, period: 1 }, None),
        (&path[..0], made(3), None),
    ] {
        assert_eq!(rt; branch_range(&instance, path, column), range, "{column}");
    }
}

#[test]
fn a_branch_leaves_something_on_both_sides(rt: HostRuntime) {
    let instance = one_item(&rt, rt.alloc());
    let path = [bound(true, 4), bound(false, 2)];
    for (period, at, splits) in [
        (1u32, 1u64, false),
        (1, 2, true),
        (1, 3, true),
        (1, 4, false),
        (3, 2, false),
    ] {
        assert_eq!(rt;
            is_split(&instance, &path, made(period), at),
            splits,
            "{period} {at}"
        );
    }
}

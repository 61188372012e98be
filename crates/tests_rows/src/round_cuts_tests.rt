use fixtures::shop;
use lin_rows::{Column, CutFault, Row, RowName, Term, base_row};
use lot_model::Instance;
use round_cuts::round_row;
use std::alloc::Global;
use std::process::Abort;

// Rows of the instance.
fn rows(rt: &impl Abort, alloc: Global, instance: &Instance, names: &[RowName]) -> Vec<Row> {
    let mut rows = Vec::new(alloc);
    for name in names {
        rows.push(base_row(alloc, instance, *name).expect(rt, "no such row"))
            .expect(rt, "memory");
    }
    rows
}

// Rows of the item alone.
fn shop_rows(rt: &impl Abort, alloc: Global, names: &[RowName]) -> Vec<Row> {
    let instance = shop(alloc).expect(rt, "an instance");
    rows(rt, alloc, &instance, names)
}

// Whether the row of these multiples of the item's rows, rounded by a divisor, has a column once as its only term; its right
// side, and whether it is an equation.
fn rounded(
    rt: &impl Abort,
    alloc: Global,
    names: &[RowName],
    multipliers: &[i128],
    divisor: u64,
    column: Column,
) -> (bool, i128, bool) {
    if divisor < 1 || divisor > 10 {
        panic!(rt; "no such divisor");
    }
    let rows = shop_rows(rt, alloc, names);
    let row = round_row(alloc, &rows, multipliers, divisor).expect(rt, "no row");
    let term = Term { column, times: 1 };
    (row.terms() == &[term][..], row.right(), row.is_equal())
}

// The sum is 10 y[2] - y[1] - s[2] >= 4.
#[test]
fn a_setup_is_needed(rt: HostRuntime) {
    let names = [
        RowName::Balance(1, 1),
        RowName::Balance(1, 2),
        RowName::Link(1, 2),
        RowName::Capacity(1, 1),
    ];
    let y = Column::Y { item: 1, period: 2 };
    let found = rounded(&rt, rt.alloc(), &names, &[1, 1, 1, 1], 10, y);
    assert_eq!(rt; found, (true, 1, false));
}

// Twice the balance of the first period, 2 x[1] - 2 s[1] = 4, and of the opposite, by 3.
#[test]
fn numbers_are_rounded_up(rt: HostRuntime) {
    let alloc = rt.alloc();
    let names = [RowName::Balance(1, 1)];
    let x = Column::X { item: 1, period: 1 };
    assert_eq!(rt; rounded(&rt, alloc, &names, &[2], 3, x), (true, 2, false));
    let s = Column::S { item: 1, period: 1 };
    assert_eq!(rt; rounded(&rt, alloc, &names, &[-2], 3, s), (true, -1, false));
}

// Why there is no row of these multiples of two equal rows.
fn fault_of(rt: &impl Abort, alloc: Global, multipliers: &[i128]) -> Option<CutFault> {
    let rows = shop_rows(rt, alloc, &[RowName::Top(1, 1), RowName::Top(1, 1)]);
    round_row(alloc, &rows, multipliers, 1).err()
}

#[test]
fn refusals(rt: HostRuntime) {
    let alloc = rt.alloc();
    let half = 1i128 << 126;
    assert_eq!(rt;
        fault_of(&rt, alloc, &[half, half]),
        Some(CutFault::TooLarge)
    );
    assert_eq!(rt; fault_of(&rt, alloc, &[1, -1]), Some(CutFault::Sign));
    assert_eq!(rt; fault_of(&rt, alloc, &[-1]), Some(CutFault::Length));
}

use fixtures::{Item, PLAIN, Resource, instance, instance_alike, shop};
use frac128::Frac;
use lin_rows::{
    Bound, Column, CutFault, Point, Row, RowFault, RowName, SumFault, Sums, Term, base_row,
    column_at, column_cost, column_count, column_number,
};
use lot_model::Instance;
use lot_sizing::limits::MAX_ITEMS;
use std::alloc::Global;
use std::process::Abort;

// A table that takes two legs and may be late, with one in stock at first.
const TABLE: Item<'static> = Item {
    name: "table",
    demand: &[3, 5],
    setup_cost: &[10],
    hold_cost: &[1],
    backlog_cost: Some(&[1]),
    opening: 1,
    needs: &[("leg", 2)],
    ..PLAIN
};

const LEG: Item<'static> = Item {
    name: "leg",
    setup_cost: &[10],
    hold_cost: &[1],
    ..PLAIN
};

// The instance of both.
fn tables(rt: &impl Abort, alloc: Global) -> Instance {
    instance(alloc, 2, &[], &[TABLE, LEG]).expect(rt, "an instance")
}

// A part that arrives a period after its start, in lots of 3 to 6.
const PART: Item<'static> = Item {
    name: "part",
    demand: &[2, 4, 5],
    setup_cost: &[10],
    hold_cost: &[1],
    opening: 2,
    lead: 1,
    min_lot: 3,
    max_lot: Some(6),
    ..PLAIN
};

// This part over three periods.
fn lots(rt: &impl Abort, alloc: Global) -> Instance {
    instance(alloc, 3, &[], &[PART]).expect(rt, "an instance")
}

fn row(rt: &impl Abort, alloc: Global, instance: &Instance, name: RowName) -> Row {
    base_row(alloc, instance, name).expect(rt, "no such row")
}

// The right side of a row with just these terms, and whether it is an equation; none where it has other
// terms.
fn right_beside(row: &Row, terms: &[Term]) -> Option<(i128, bool)> {
    if row.terms() == terms {
        Some((row.right(), row.is_equal()))
    } else {
        None
    }
}

// The same of a row of an instance.
fn right_of(
    rt: &impl Abort,
    alloc: Global,
    instance: &Instance,
    name: RowName,
    terms: &[Term],
) -> Option<(i128, bool)> {
    let row = row(rt, alloc, instance, name);
    right_beside(&row, terms)
}

fn x(item: u32, period: u32, times: i128) -> Term {
    let column = Column::X { item, period };
    Term { column, times }
}

fn y(item: u32, period: u32, times: i128) -> Term {
    let column = Column::Y { item, period };
    Term { column, times }
}

fn s(item: u32, period: u32, times: i128) -> Term {
    let column = Column::S { item, period };
    Term { column, times }
}

fn r(item: u32, period: u32, times: i128) -> Term {
    let column = Column::R { item, period };
    Term { column, times }
}

#[test]
fn rows_of_a_shop(rt: HostRuntime) {
    let alloc = rt.alloc();
    let instance = shop(alloc).expect(&rt, "an instance");
    for (name, terms, want) in [
        (
            RowName::Balance(1, 1),
            &[x(1, 1, 1), s(1, 1, -1)][..],
            (2i128, true),
        ),
        (
            RowName::Balance(1, 2),
            &[x(1, 2, 1), s(1, 1, 1), s(1, 2, -1)][..],
            (8, true),
        ),
        (
            RowName::Link(1, 2),
            &[x(1, 2, -1), y(1, 2, 10)][..],
            (0, false),
        ),
        (
            RowName::Capacity(1, 1),
            &[x(1, 1, -1), y(1, 1, -1)][..],
            (-6, false),
        ),
        (RowName::EndMin(1), &[s(1, 2, 1)][..], (0, false)),
        (RowName::EndMax(1), &[s(1, 2, -1)][..], (0, false)),
        (RowName::Top(1, 1), &[y(1, 1, -1)][..], (-1, false)),
    ] {
        let found = right_of(&rt, alloc, &instance, name, terms);
        assert_eq!(rt; found, Some(want), "{name}");
    }
}

#[test]
fn balances_with_components_and_backlog(rt: HostRuntime) {
    let alloc = rt.alloc();
    let instance = tables(&rt, alloc);
    for (name, terms, right) in [
        (
            RowName::Balance(1, 1),
            &[x(1, 1, 1), s(1, 1, -1), r(1, 1, 1)][..],
            2i128,
        ),
        (
            RowName::Balance(1, 2),
            &[x(1, 2, 1), s(1, 1, 1), s(1, 2, -1), r(1, 1, -1)][..],
            5,
        ),
        (
            RowName::Balance(2, 2),
            &[x(1, 2, -2), x(2, 2, 1), s(2, 1, 1), s(2, 2, -1)][..],
            0,
        ),
    ] {
        let found = right_of(&rt, alloc, &instance, name, terms);
        assert_eq!(rt; found, Some((right, true)), "{name}");
    }
}

// Why a row of an instance isn't made; none where it is.
fn fault(alloc: Global, instance: &Instance, name: RowName) -> Option<RowFault> {
    base_row(alloc, instance, name).err()
}

#[test]
fn rows_that_do_not_exist(rt: HostRuntime) {
    let alloc = rt.alloc();
    let instance = shop(alloc).expect(&rt, "an instance");
    for name in [
        RowName::Balance(1, 3),
        RowName::Balance(2, 1),
        RowName::Link(0, 1),
        RowName::Capacity(2, 1),
        RowName::EndMin(2),
        RowName::EndMax(0),
        RowName::Top(1, 0),
        RowName::Least(1, 1),
        RowName::Late(1, 2),
        RowName::Path(1),
        RowName::Cut(1),
    ] {
        assert_eq!(rt;
            fault(alloc, &instance, name),
            Some(RowFault::NoSuchRow),
            "{name}"
        );
    }
}

// What a unit costs in the column of a number, if there is one.
fn cost_at(instance: &Instance, number: u32) -> Option<u64> {
    match column_at(instance, number) {
        Some(column) => Some(column_cost(instance, column)),
        None => None,
    }
}

#[test]
fn columns_have_numbers_and_costs(rt: HostRuntime) {
    let alloc = rt.alloc();
    let instance = tables(&rt, alloc);
    assert_eq!(rt; column_count(&instance), 13);
    for (term, number) in [
        (x(1, 1, 1), Some(1u32)),
        (x(2, 2, 1), Some(4)),
        (y(1, 1, 1), Some(5)),
        (s(2, 2, 1), Some(12)),
        (r(1, 1, 1), Some(13)),
        (r(1, 2, 1), None),
        (r(2, 1, 1), None),
        (x(3, 1, 1), None),
        (y(1, 3, 1), None),
        (s(0, 1, 1), None),
    ] {
        assert_eq!(rt; column_number(&instance, term.column), number);
    }
    for (number, column, cost) in [
        (0u32, None, None),
        (1, Some(x(1, 1, 1).column), Some(0u64)),
        (4, Some(x(2, 2, 1).column), Some(0)),
        (5, Some(y(1, 1, 1).column), Some(10)),
        (9, Some(s(1, 1, 1).column), Some(1)),
        (12, Some(s(2, 2, 1).column), Some(1)),
        (13, Some(r(1, 1, 1).column), Some(1)),
        (14, None, None),
    ] {
        assert!(rt;
            column_at(&instance, number) == column && cost_at(&instance, number) == cost,
            "{number}"
        );
    }
}

// Adds a multiple of a row of an instance to sums; false where they pass 128 bits.
fn add(
    rt: &impl Abort,
    alloc: Global,
    instance: &Instance,
    sums: &mut Sums,
    name: RowName,
    times: i128,
) -> bool {
    let row = row(rt, alloc, instance, name);
    if !sums.has_columns(&row) {
        panic!(rt; "columns that aren't there");
    }
    sums.add_times(&row, times) != Err(SumFault::Passed128)
}

// The sums of multiples of rows of an instance.
fn sums_of(rt: &impl Abort, alloc: Global, instance: &Instance, rows: &[(RowName, i128)]) -> Sums {
    let mut sums = Sums::new(alloc, instance).expect(rt, "memory");
    for (name, times) in rows {
        if !add(rt, alloc, instance, &mut sums, *name, *times) {
            panic!(rt; "sums that pass 128 bits");
        }
    }
    sums
}

// The sums of multiples of rows of the shop.
fn sums_in_shop(rt: &impl Abort, alloc: Global, rows: &[(RowName, i128)]) -> Sums {
    let instance = shop(alloc).expect(rt, "an instance");
    sums_of(rt, alloc, &instance, rows)
}

#[test]
fn sums_of_rows(rt: HostRuntime) {
    let alloc = rt.alloc();
    let rows = [
        (RowName::Link(1, 2), 1i128),
        (RowName::Balance(1, 2), 1),
        (RowName::Capacity(1, 1), 1),
        (RowName::Balance(1, 1), 1),
    ];
    let sums = sums_in_shop(&rt, alloc, &rows);
    for term in [
        x(1, 1, 0),
        x(1, 2, 0),
        y(1, 1, -1),
        y(1, 2, 10),
        s(1, 1, 0),
        s(1, 2, -1),
        r(1, 1, 0),
        x(2, 1, 0),
    ] {
        assert_eq!(rt; sums.column(term.column), term.times);
    }
    assert_eq!(rt; sums.right(), 4);
}

// The right side of these sums, before and after eight times a balance is taken away.
fn right_before_and_after(rt: &impl Abort, alloc: Global) -> (i128, bool, i128) {
    let instance = shop(alloc).expect(rt, "an instance");
    let rows = [
        (RowName::Link(1, 2), 1i128),
        (RowName::Balance(1, 2), 1),
        (RowName::Capacity(1, 1), 1),
        (RowName::Balance(1, 1), 1),
    ];
    let mut sums = sums_of(rt, alloc, &instance, &rows);
    let before = sums.right();
    let is_added = add(rt, alloc, &instance, &mut sums, RowName::Balance(1, 1), -8);
    (before, is_added, sums.right())
}

#[test]
fn rows_that_are_taken_away(rt: HostRuntime) {
    let alloc = rt.alloc();
    assert_eq!(rt; right_before_and_after(&rt, alloc), (4, true, -12));
}

// The setup's column and the right side of sums that are cleared, and after twice a row is added to them.
fn cleared_and_after(
    rt: &impl Abort,
    alloc: Global,
    instance: &Instance,
) -> ((i128, i128), bool, (i128, i128)) {
    let setup = y(1, 2, 1).column;
    let mut sums = sums_of(rt, alloc, instance, &[(RowName::Link(1, 2), 1i128)]);
    sums.clear();
    let cleared = (sums.column(setup), sums.right());
    let is_added = add(rt, alloc, instance, &mut sums, RowName::Link(1, 2), 2);
    (cleared, is_added, (sums.column(setup), sums.right()))
}

#[test]
fn sums_that_are_cleared(rt: HostRuntime) {
    let alloc = rt.alloc();
    let instance = shop(alloc).expect(&rt, "an instance");
    assert_eq!(rt;
        cleared_and_after(&rt, alloc, &instance),
        ((0, 0), true, (20, 0))
    );
}

// Whether a multiple of a row is added to sums, and then the column of the first setup and the right side.
fn after(
    rt: &impl Abort,
    alloc: Global,
    instance: &Instance,
    sums: &mut Sums,
    name: RowName,
    times: i128,
) -> (bool, i128, i128) {
    let is_added = add(rt, alloc, instance, sums, name, times);
    (is_added, sums.column(y(1, 1, 1).column), sums.right())
}

#[test]
fn sums_that_pass_128_bits(rt: HostRuntime) {
    let alloc = rt.alloc();
    let instance = shop(alloc).expect(&rt, "an instance");
    let mut sums = Sums::new(alloc, &instance).expect(&rt, "memory");
    let half = 1i128 << 126;
    for (name, times, is_added, sum) in [
        (RowName::Top(1, 1), half, true, -half),
        (RowName::Top(1, 1), -half, false, -half),
        (RowName::Top(1, 1), 1 - half, true, -1),
        (RowName::Link(1, 2), half, false, -1),
        (RowName::Link(1, 2), i128::MIN, false, -1),
    ] {
        let found = after(&rt, alloc, &instance, &mut sums, name, times);
        assert_eq!(rt; found, (is_added, sum, sum), "{name} {times}");
    }
}

#[test]
fn rows_of_lots(rt: HostRuntime) {
    let alloc = rt.alloc();
    let instance = lots(&rt, alloc);
    for (name, terms, want) in [
        (RowName::Balance(1, 1), &[s(1, 1, -1)][..], (0i128, true)),
        (
            RowName::Balance(1, 2),
            &[x(1, 1, 1), s(1, 1, 1), s(1, 2, -1)][..],
            (4, true),
        ),
        (
            RowName::Link(1, 2),
            &[x(1, 2, -1), y(1, 2, 6)][..],
            (0, false),
        ),
        (
            RowName::Least(1, 2),
            &[x(1, 2, 1), y(1, 2, -3)][..],
            (0, false),
        ),
        (RowName::Late(1, 3), &[x(1, 3, -1)][..], (0, false)),
    ] {
        let found = right_of(&rt, alloc, &instance, name, terms);
        assert_eq!(rt; found, Some(want), "{name}");
    }
    let none = fault(alloc, &instance, RowName::Late(1, 2));
    assert_eq!(rt; none, Some(RowFault::NoSuchRow));
}

// An item that may be late, and takes a unit of time for each unit and as much as may be for each setup.
const LARGE: Item<'static> = Item {
    setup_cost: &[10],
    hold_cost: &[1],
    backlog_cost: Some(&[2]),
    end_max: Some(2_000_000_000),
    uses: &[("m", 1, 1_000_000_000)],
    ..PLAIN
};

// As many of them over as many periods as a draft may have, on a resource with as much time in each period as there may be.
fn largest(rt: &impl Abort, alloc: Global) -> Instance {
    let machine = Resource {
        name: "m",
        capacity: &[1_000_000_000],
    };
    instance_alike(alloc, 120, &[machine], MAX_ITEMS, &LARGE).expect(rt, "an instance")
}

// How many terms a row of an instance has, and its right side.
fn size_of(rt: &impl Abort, alloc: Global, instance: &Instance, name: RowName) -> (usize, i128) {
    let row = row(rt, alloc, instance, name);
    (row.terms().len(), row.right())
}

// What a column of three times a row adds to.
fn column_of_three_times(
    rt: &impl Abort,
    alloc: Global,
    instance: &Instance,
    name: RowName,
    column: Column,
) -> i128 {
    sums_of(rt, alloc, instance, &[(name, 3i128)]).column(column)
}

#[test]
fn the_largest_instance(rt: HostRuntime) {
    let alloc = rt.alloc();
    let instance = largest(&rt, alloc);
    let last = column_number(&instance, r(40, 119, 1).column);
    let after = column_number(&instance, r(40, 120, 1).column);
    assert_eq!(rt;
        (column_count(&instance), last, after),
        (19_160, Some(19_160), None)
    );
    let capacity = size_of(&rt, alloc, &instance, RowName::Capacity(1, 120));
    let end = right_of(
        &rt,
        alloc,
        &instance,
        RowName::EndMax(40),
        &[s(40, 120, -1)],
    );
    assert_eq!(rt;
        (capacity, end),
        ((80, -1_000_000_000), Some((-2_000_000_000, false)))
    );
    let setup = y(40, 120, 1).column;
    let sum = column_of_three_times(&rt, alloc, &instance, RowName::Capacity(1, 120), setup);
    assert_eq!(rt; sum, -3_000_000_000);
}

#[test]
fn texts_of_faults(rt: HostRuntime) {
    let alloc = rt.alloc();
    let broken = CutFault::Potential {
        first: 1,
        last: 2,
        server: 3,
    };
    for (fault, text) in [
        (CutFault::Length, "a list has another length"),
        (CutFault::TooLarge, "a number is past its limit"),
        (
            broken,
            "potentials rise by more than the block 1 to 2 costs from period 3",
        ),
        (
            CutFault::Sign,
            "an inequality is taken a negative number of times",
        ),
        (CutFault::Memory, "out of memory"),
    ] {
        assert_eq!(rt;
            format!(in alloc; "{fault}").expect(&rt, "memory").as_str(),
            text
        );
    }
    let none = format!(in alloc; "{}", RowFault::NoSuchRow).expect(&rt, "memory");
    assert_eq!(rt; none.as_str(), "there is no such row");
}

#[test]
fn texts_of_columns(rt: HostRuntime) {
    let alloc = rt.alloc();
    for (column, text) in [
        (Column::X { item: 1, period: 2 }, "x 1 2"),
        (Column::Y { item: 3, period: 4 }, "y 3 4"),
        (Column::S { item: 5, period: 6 }, "s 5 6"),
        (
            Column::R {
                item: 40,
                period: 60,
            },
            "r 40 60",
        ),
    ] {
        assert_eq!(rt;
            format!(in alloc; "{column}").expect(&rt, "memory").as_str(),
            text
        );
    }
}

#[test]
fn texts_of_names(rt: HostRuntime) {
    let alloc = rt.alloc();
    for (name, text) in [
        (RowName::Balance(1, 2), "balance 1 2"),
        (RowName::Link(1, 2), "link 1 2"),
        (RowName::Capacity(1, 2), "capacity 1 2"),
        (RowName::EndMin(7), "endmin 7"),
        (RowName::EndMax(7), "endmax 7"),
        (RowName::Top(1, 2), "top 1 2"),
        (RowName::Least(40, 120), "least 40 120"),
        (RowName::Late(1, 2), "late 1 2"),
        (RowName::Path(10), "path 10"),
        (RowName::Cut(1), "cut 1"),
    ] {
        assert_eq!(rt;
            format!(in alloc; "{name}").expect(&rt, "memory").as_str(),
            text
        );
    }
}

// The point at which the value of each column is its number.
fn numbered(rt: &impl Abort, alloc: Global, instance: &Instance) -> Point {
    let mut values = Vec::new(alloc);
    for before in 0..column_count(instance) {
        values
            .push(Frac::from(before as u64 + 1))
            .expect(rt, "memory");
    }
    if values.len() != column_count(instance) as usize {
        panic!(rt; "another number of values");
    }
    Point::new(instance, values)
}

#[test]
fn values_with_backlogs(rt: HostRuntime) {
    let alloc = rt.alloc();
    let point = numbered(&rt, alloc, &tables(&rt, alloc));
    for (term, value) in [
        (x(1, 1, 1), 1u64),
        (x(2, 2, 1), 4),
        (y(1, 1, 1), 5),
        (s(2, 2, 1), 12),
        (r(1, 1, 1), 13),
        (r(1, 2, 1), 0),
        (r(2, 1, 1), 0),
        (x(3, 1, 1), 0),
        (y(1, 3, 1), 0),
        (s(0, 1, 1), 0),
    ] {
        assert!(rt; point.value(term.column) == Frac::from(value));
    }
}

#[test]
fn values_without_backlogs(rt: HostRuntime) {
    let alloc = rt.alloc();
    let point = numbered(&rt, alloc, &shop(alloc).expect(&rt, "an instance"));
    let is_stock = point.value(s(1, 2, 1).column) == Frac::from(6u64);
    let is_late = point.value(r(1, 1, 1).column) == Frac::from(0u64);
    let counts = (point.values().len(), point.into_values().len());
    assert_eq!(rt; (is_stock, is_late, counts), (true, true, (6, 6)));
}

// The right side of a bound's row with just this term, and whether it is an equation.
fn right_of_bound(
    rt: &impl Abort,
    alloc: Global,
    bound: Bound,
    term: Term,
) -> Option<(i128, bool)> {
    let row = bound.row(alloc).expect(rt, "memory");
    right_beside(&row, &[term])
}

#[test]
fn rows_of_bounds(rt: HostRuntime) {
    let alloc = rt.alloc();
    let column = x(1, 2, 1).column;
    let most = Bound {
        column,
        most: true,
        number: 7,
    };
    let least = Bound {
        column,
        most: false,
        number: 8,
    };
    let most = right_of_bound(&rt, alloc, most, x(1, 2, -1));
    let least = right_of_bound(&rt, alloc, least, x(1, 2, 1));
    assert_eq!(rt; (most, least), (Some((-7, false)), Some((8, false))));
}

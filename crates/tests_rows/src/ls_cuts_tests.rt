use echelon::{EchelonItem, is_echelon_within_bounds};
use fixtures::{Item, PLAIN, instance};
use frac128::Frac;
use lin_rows::{Column, Point, Row, RowFault, Term, column_count};
use lot_model::Instance;
use ls_cuts::{SepFault, ls_row, separate};
use std::alloc::Global;
use std::process::Abort;

fn x(period: u32) -> Column {
    Column::X { item: 1, period }
}

fn y(period: u32) -> Column {
    Column::Y { item: 1, period }
}

fn r(period: u32) -> Column {
    Column::R { item: 1, period }
}

fn term(column: Column, times: i128) -> Term {
    Term { column, times }
}

// The echelon of one item that goes into no other.
fn echelon(
    rt: &impl Abort,
    alloc: Global,
    demand: &[u128],
    opening: u128,
    back: bool,
) -> EchelonItem {
    EchelonItem {
        item: 1,
        demand: demand.to_vec(alloc).expect(rt, "memory"),
        opening,
        end_min: 0,
        weights: vec![in alloc; 1u64].expect(rt, "memory"),
        backs: vec![in alloc; back].expect(rt, "memory"),
        backlogged: back,
    }
}

// Its row.
fn row_of(alloc: Global, echelon: &EchelonItem, l: u32, chosen: &[bool]) -> Result<Row, RowFault> {
    if is_echelon_within_bounds(echelon) {
        ls_row(alloc, echelon, l, chosen)
    } else {
        Err(RowFault::Memory)
    }
}

// Whether its row has these terms, the row's right side, and whether it is an equation.
fn sides(
    rt: &impl Abort,
    alloc: Global,
    echelon: &EchelonItem,
    last: u32,
    chosen: &[bool],
    terms: &[Term],
) -> (bool, i128, bool) {
    let row = row_of(alloc, echelon, last, chosen).expect(rt, "no row");
    (row.terms() == terms, row.right(), row.is_equal())
}

// The same of an item that is asked for 2 and 8, with an opening stock.
fn sides_of(
    rt: &impl Abort,
    alloc: Global,
    opening: u128,
    chosen: &[bool],
    terms: &[Term],
) -> (bool, i128, bool) {
    let item = echelon(rt, alloc, &[2, 8], opening, false);
    let last = if chosen.len() == 1 { 1 } else { 2 };
    sides(rt, alloc, &item, last, chosen, terms)
}

// The opening stock is taken from the right side.
#[test]
fn rows_of_an_item(rt: HostRuntime) {
    let alloc = rt.alloc();
    let first = sides_of(&rt, alloc, 0, &[true], &[term(y(1), 2)]);
    let second = sides_of(
        &rt,
        alloc,
        0,
        &[false, true],
        &[term(x(1), 1), term(y(2), 8)],
    );
    let held = sides_of(
        &rt,
        alloc,
        3,
        &[true, false],
        &[term(x(2), 1), term(y(1), 10)],
    );
    assert_eq!(rt;
        (first, second, held),
        ((true, 2, false), (true, 10, false), (true, 7, false))
    );
}

#[test]
fn there_is_no_other_row(rt: HostRuntime) {
    let alloc = rt.alloc();
    let item = echelon(&rt, alloc, &[2u128, 8], 0, false);
    for (l, chosen) in [
        (0u32, &[][..]),
        (1, &[][..]),
        (1, &[true, false][..]),
        (3, &[true, false, true][..]),
    ] {
        assert_eq!(rt;
            row_of(alloc, &item, l, chosen).err(),
            Some(RowFault::NoSuchRow),
            "{l}"
        );
    }
}

// What the terms add to at these values.
fn left_at(row: &Row, values: &[(Column, i128)]) -> i128 {
    let mut sum = 0i128;
    for term in row.terms() {
        for (column, value) in values {
            if *column == term.column {
                sum = sum.wrapping_add(term.times.wrapping_mul(*value));
            }
        }
    }
    sum
}

// What the terms of the second period's row add to, of an item that may be late.
fn left_of_late(rt: &impl Abort, alloc: Global, values: &[(Column, i128)]) -> i128 {
    let item = echelon(rt, alloc, &[4u128, 6], 0, true);
    let row = row_of(alloc, &item, 2, &[false, true]).expect(rt, "no row");
    left_at(&row, values)
}

// An item asked for 4 and 6 may be late. Making all 10 in period 2 owes 4 at the end of period 1, and would break the
// row without that.
#[test]
fn a_backlog_counts_before_a_chosen_period(rt: HostRuntime) {
    let alloc = rt.alloc();
    let item = echelon(&rt, alloc, &[4u128, 6], 0, true);
    let terms = [term(x(1), 1), term(y(2), 6), term(r(1), 1)];
    assert_eq!(rt;
        sides(&rt, alloc, &item, 2, &[false, true], &terms),
        (true, 10, false)
    );
    let made = [(x(1), 0i128), (x(2), 10), (y(1), 0), (y(2), 1)];
    assert_eq!(rt; left_of_late(&rt, alloc, &made), 6);
    let plan = [(x(1), 0i128), (x(2), 10), (y(1), 0), (y(2), 1), (r(1), 4)];
    assert_eq!(rt; left_of_late(&rt, alloc, &plan), 10);
}

// One item over two periods that is asked for 2 and 8.
fn model(rt: &impl Abort, alloc: Global) -> Instance {
    let only = Item {
        demand: &[2, 8],
        setup_cost: &[10],
        hold_cost: &[1],
        ..PLAIN
    };
    instance(alloc, 2, &[], &[only]).expect(rt, "an instance")
}

// Units 5 and 5, these setups, stocks 3 and 0.
fn point(rt: &impl Abort, alloc: Global, first: Frac, second: Frac) -> Point {
    let instance = model(rt, alloc);
    let units = Frac::from(5u64);
    let (held, none) = (Frac::from(3u64), Frac::from(0u64));
    let values = vec![in alloc; units, units, first, second, held, none].expect(rt, "memory");
    if values.len() != column_count(&instance) as usize {
        panic!(rt; "another number of columns");
    }
    Point::new(&instance, values)
}

// What is found of an item that is asked for 2 and 8.
fn found(
    rt: &impl Abort,
    alloc: Global,
    first: Frac,
    second: Frac,
    l: u32,
) -> Result<Option<Vec<bool>>, SepFault> {
    let item = echelon(rt, alloc, &[2u128, 8], 0, false);
    let at = point(rt, alloc, first, second);
    if !is_echelon_within_bounds(&item) || l < 1 || l as usize > item.demand.len() {
        panic!(rt; "no such row");
    }
    separate(alloc, &item, &at, l)
}

// Whether these periods are chosen in the row to the last period that is found where both setups are so much; None where
// none is found.
fn chooses(
    rt: &impl Abort,
    alloc: Global,
    setup: Frac,
    last: u32,
    chosen: &[bool],
) -> Option<bool> {
    match found(rt, alloc, setup, setup, last).expect(rt, "no answer") {
        Some(list) => Some(list.as_slice() == chosen),
        None => None,
    }
}

#[test]
fn the_most_violated_row_is_found(rt: HostRuntime) {
    let alloc = rt.alloc();
    let half = Frac::new(1, 2).expect(&rt, "no half");
    assert_eq!(rt; chooses(&rt, alloc, half, 1, &[true]), Some(true));
    assert_eq!(rt; chooses(&rt, alloc, half, 2, &[false, true]), Some(true));
}

#[test]
fn no_row_is_found_where_all_are_met(rt: HostRuntime) {
    let alloc = rt.alloc();
    let one = Frac::from(1u64);
    assert!(rt;
        found(&rt, alloc, one, one, 1)
            .expect(&rt, "no answer")
            .is_none()
    );
    assert!(rt;
        found(&rt, alloc, one, one, 2)
            .expect(&rt, "no answer")
            .is_none()
    );
}

#[test]
fn a_number_may_pass_128_bits(rt: HostRuntime) {
    let alloc = rt.alloc();
    let most = Frac::whole(i128::MAX).expect(&rt, "too large");
    let answer = found(&rt, alloc, most, Frac::from(1u64), 1);
    assert_eq!(rt; answer.err(), Some(SepFault::Passed128));
}

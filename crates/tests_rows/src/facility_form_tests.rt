use crate::samples::{alone, text};
use echelon::{EchelonItem, is_echelon_within_bounds};
use facility_form::{assign, price_row};
use lin_rows::Prices;
use std::alloc::Global;
use std::process::Abort;

#[test]
fn the_second_period_serves_both(rt: HostRuntime) {
    let assignment = assign(rt.alloc(), &[0u64, 10], &[4u128, 6]).expect(&rt, "memory");
    assert_eq!(rt; (assignment.served(2, 1), assignment.served(2, 2)), (4, 6));
    assert_eq!(rt; (assignment.served(1, 1), assignment.served(1, 2)), (0, 0));
}

#[test]
fn what_is_made_first_serves_first(rt: HostRuntime) {
    let assignment = assign(rt.alloc(), &[5u64, 0, 9], &[2u128, 6, 4]).expect(&rt, "memory");
    for (server, period, want) in [
        (1u32, 1u32, 2u128),
        (1, 2, 3),
        (1, 3, 0),
        (2, 1, 0),
        (2, 2, 0),
        (2, 3, 0),
        (3, 1, 0),
        (3, 2, 3),
        (3, 3, 4),
    ] {
        assert!(rt; server >= 1 && server <= 3 && period >= 1 && period <= 3);
        assert_eq!(rt;
            assignment.served(server, period),
            want,
            "{server} {period}"
        );
    }
}

// Prices of two periods.
fn prices(rt: &impl Abort, alloc: Global, price: &[u64], hold: &[u64], back: &[u64]) -> Prices {
    Prices {
        price: Vec::from_slice(alloc, price).expect(rt, "memory"),
        unit: vec![in alloc; 0u64, 0].expect(rt, "memory"),
        hold: Vec::from_slice(alloc, hold).expect(rt, "memory"),
        back: Vec::from_slice(alloc, back).expect(rt, "memory"),
    }
}

// The text of the row of an echelon within bounds, or of its fault.
fn row_text(rt: &impl Abort, alloc: Global, echelon: &EchelonItem, prices: &Prices) -> String {
    if !is_echelon_within_bounds(echelon) {
        panic!(rt; "not within bounds");
    }
    match price_row(alloc, echelon, prices) {
        Ok(row) => text(rt, alloc, &row),
        Err(fault) => format!(in alloc; "{fault}").expect(rt, "memory"),
    }
}

// That of the item alone which may not be late, without stock.
fn text_of_prompt(rt: &impl Abort, alloc: Global, price: &[u64], hold: &[u64]) -> String {
    let item = alone(rt, alloc, false, 0);
    let lists = prices(rt, alloc, price, hold, &[0, 0]);
    row_text(rt, alloc, &item, &lists)
}

// That of the item alone which may be late, with one unit in stock.
fn text_of_late(
    rt: &impl Abort,
    alloc: Global,
    price: &[u64],
    hold: &[u64],
    back: &[u64],
) -> String {
    let item = alone(rt, alloc, true, 1);
    let lists = prices(rt, alloc, price, hold, back);
    row_text(rt, alloc, &item, &lists)
}

#[test]
fn the_row_of_an_item_without_backlog(rt: HostRuntime) {
    let found = text_of_prompt(&rt, rt.alloc(), &[25, 1], &[1, 0]);
    assert_eq!(rt; found.as_str(), "100 y 1 1, 6 y 1 2, 1 s 1 1, >= 106");
}

#[test]
fn the_row_of_an_item_with_backlog(rt: HostRuntime) {
    let found = text_of_late(&rt, rt.alloc(), &[25, 1], &[1, 0], &[2, 0]);
    // Of 3 and 6, the second period's setup gains 3 * (25 - 2) of the first one's demand.
    assert_eq!(rt;
        found.as_str(),
        "75 y 1 1, 75 y 1 2, 1 s 1 1, 2 r 1 1, >= 81"
    );
}

#[test]
fn lists_that_make_no_row(rt: HostRuntime) {
    let alloc = rt.alloc();
    let large = text_of_prompt(&rt, alloc, &[100_000_000_001, 1], &[1, 0]);
    assert_eq!(rt; large.as_str(), "a number is past its limit");
    let short = text_of_prompt(&rt, alloc, &[100_000_000_001, 1], &[1]);
    assert_eq!(rt; short.as_str(), "a list has another length");
}

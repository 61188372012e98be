use crate::samples::{alone, text};
use backlog_dp::{Block, SingleItem, block_row, solve};
use echelon::{EchelonItem, is_echelon_within_bounds, is_within_bounds};
use lin_rows::Potentials;
use std::alloc::Global;
use std::process::Abort;

// An item over two periods that may not be late. Its second setup is the cheaper one.
fn prompt(rt: &impl Abort, alloc: Global) -> SingleItem {
    SingleItem {
        net: vec![in alloc; 4u128, 6].expect(rt, "memory"),
        setup: vec![in alloc; 100u64, 20].expect(rt, "memory"),
        unit: vec![in alloc; 0u64, 0].expect(rt, "memory"),
        hold: vec![in alloc; 1u64, 1].expect(rt, "memory"),
        back: None,
    }
}

// The same, where it may be late.
fn late(rt: &impl Abort, alloc: Global) -> SingleItem {
    let mut single = prompt(rt, alloc);
    single.back = Some(vec![in alloc; 2u64, 2].expect(rt, "memory"));
    single
}

// The least cost of an item, the first block and how many there are, and whether the potentials are these.
fn least(
    rt: &impl Abort,
    alloc: Global,
    single: SingleItem,
    potentials: &[u128],
) -> (u128, Option<Block>, usize, bool) {
    if !is_within_bounds(&single) {
        panic!(rt; "not within bounds");
    }
    let found = solve(alloc, &single).expect(rt, "memory");
    (
        found.cost,
        found.blocks.first().copied(),
        found.blocks.len(),
        found.potentials.as_slice() == potentials,
    )
}

#[test]
fn all_demand_is_made_in_the_cheaper_period(rt: HostRuntime) {
    let alloc = rt.alloc();
    let block = Block {
        first: 1,
        last: 2,
        server: 2,
    };
    let found = least(&rt, alloc, late(&rt, alloc), &[28, 28]);
    assert_eq!(rt; found, (28, Some(block), 1, true));
    let (cost, ..) = least(&rt, alloc, prompt(&rt, alloc), &[]);
    assert_eq!(rt; cost, 106);
}

// Prices of two periods, with these potentials.
fn prices(rt: &impl Abort, alloc: Global, steps: &[u128]) -> Potentials {
    Potentials {
        setup: vec![in alloc; 100u64, 20].expect(rt, "memory"),
        unit: vec![in alloc; 0u64, 0].expect(rt, "memory"),
        hold: vec![in alloc; 1u64, 1].expect(rt, "memory"),
        back: vec![in alloc; 2u64, 2].expect(rt, "memory"),
        steps: Vec::from_slice(alloc, steps).expect(rt, "memory"),
    }
}

// The text of the row of an echelon within bounds, or of its fault.
fn row_text(rt: &impl Abort, alloc: Global, echelon: &EchelonItem, steps: &[u128]) -> String {
    if !is_echelon_within_bounds(echelon) {
        panic!(rt; "not within bounds");
    }
    let potentials = prices(rt, alloc, steps);
    match block_row(alloc, echelon, &potentials) {
        Ok(row) => text(rt, alloc, &row),
        Err(fault) => format!(in alloc; "{fault}").expect(rt, "memory"),
    }
}

// That of the item alone.
fn text_alone(
    rt: &impl Abort,
    alloc: Global,
    backlogged: bool,
    opening: u128,
    steps: &[u128],
) -> String {
    let item = alone(rt, alloc, backlogged, opening);
    row_text(rt, alloc, &item, steps)
}

#[test]
fn the_potentials_of_the_recursion_make_a_row(rt: HostRuntime) {
    let found = text_alone(&rt, rt.alloc(), true, 0, &[28, 28]);
    assert_eq!(rt;
        found.as_str(),
        "100 y 1 1, 20 y 1 2, 1 s 1 1, 1 s 1 2, 2 r 1 1, >= 28"
    );
}

#[test]
fn an_opening_stock_is_held_until_it_is_used_up(rt: HostRuntime) {
    // Of 7 units 3 are left in the first period; the second one asks for 3.
    let found = text_alone(&rt, rt.alloc(), false, 7, &[20]);
    assert_eq!(rt;
        found.as_str(),
        "100 y 1 1, 20 y 1 2, 1 s 1 1, 1 s 1 2, >= 23"
    );
}

#[test]
fn the_first_broken_block_is_named(rt: HostRuntime) {
    let found = text_alone(&rt, rt.alloc(), true, 0, &[28, 48]);
    assert_eq!(rt;
        found.as_str(),
        "potentials rise by more than the block 1 to 2 costs from period 2"
    );
}

// The second period lies outside the block of the first position.
#[test]
fn a_block_may_be_broken_by_a_period_outside(rt: HostRuntime) {
    let found = text_alone(&rt, rt.alloc(), true, 0, &[29, 28]);
    assert_eq!(rt;
        found.as_str(),
        "potentials rise by more than the block 1 to 1 costs from period 2"
    );
}

#[test]
fn lists_that_make_no_row(rt: HostRuntime) {
    let alloc = rt.alloc();
    let past = 1_000_000_000_000_000_000_000_000_000_000_000_001;
    let short = text_alone(&rt, alloc, true, 0, &[28]);
    assert_eq!(rt; short.as_str(), "a list has another length");
    let large = text_alone(&rt, alloc, true, 0, &[28, past]);
    assert_eq!(rt; large.as_str(), "a number is past its limit");
}

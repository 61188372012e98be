use crate::shops::{PROMPT, late, prompt};
use cert_checker::{CheckFault, Rejected, Why, cut_row};
use certificate::{Cut, Part};
use fixtures::{Item, instance, shop};
use lin_rows::{Column, Potentials, Prices, Row, RowName, Term};
use lot_model::Instance;
use std::alloc::Global;
use std::process::Abort;

fn x(period: u32, times: i128) -> Term {
    let column = Column::X { item: 1, period };
    Term { column, times }
}

fn y(period: u32, times: i128) -> Term {
    let column = Column::Y { item: 1, period };
    Term { column, times }
}

fn s(period: u32, times: i128) -> Term {
    let column = Column::S { item: 1, period };
    Term { column, times }
}

fn r(period: u32, times: i128) -> Term {
    let column = Column::R { item: 1, period };
    Term { column, times }
}

// The row of an (l,S) cut on the third line.
fn ls(
    rt: &impl Abort,
    alloc: Global,
    instance: &Instance,
    last: u32,
    chosen: &[bool],
) -> Result<Row, CheckFault> {
    let cut = Cut::Ls {
        item: 1,
        last,
        chosen: chosen.to_vec(alloc).expect(rt, "memory"),
    };
    cut_row(alloc, instance, &[], &cut, 3)
}

// That of a price cut by which units, and units owed, cost nothing.
fn price(
    rt: &impl Abort,
    alloc: Global,
    instance: &Instance,
    price: &[u64],
    hold: &[u64],
) -> Result<Row, CheckFault> {
    let prices = Prices {
        price: price.to_vec(alloc).expect(rt, "memory"),
        unit: vec![in alloc; 0u64; 2].expect(rt, "memory"),
        hold: hold.to_vec(alloc).expect(rt, "memory"),
        back: vec![in alloc; 0u64; 2].expect(rt, "memory"),
    };
    let cut = Cut::Price { item: 1, prices };
    cut_row(alloc, instance, &[], &cut, 3)
}

// That of a block cut by which setups cost 100 and 20, a unit in stock 1, and a unit owed 2.
fn block(
    rt: &impl Abort,
    alloc: Global,
    instance: &Instance,
    steps: &[u128],
) -> Result<Row, CheckFault> {
    let potentials = Potentials {
        setup: vec![in alloc; 100u64, 20u64].expect(rt, "memory"),
        unit: vec![in alloc; 0u64; 2].expect(rt, "memory"),
        hold: vec![in alloc; 1u64; 2].expect(rt, "memory"),
        back: vec![in alloc; 2u64; 2].expect(rt, "memory"),
        steps: steps.to_vec(alloc).expect(rt, "memory"),
    };
    let cut = Cut::Block {
        item: 1,
        potentials,
    };
    cut_row(alloc, instance, &[], &cut, 3)
}

// That of a rounding cut by 10, where each row is taken so many times.
fn round(
    rt: &impl Abort,
    alloc: Global,
    instance: &Instance,
    rows: [RowName; 4],
    times: i128,
) -> Result<Row, CheckFault> {
    let [first, second, third, fourth] = rows;
    let parts = vec![in alloc;
        Part { row: first, times },
        Part { row: second, times },
        Part { row: third, times },
        Part { row: fourth, times },
    ]
    .expect(rt, "memory");
    let cut = Cut::Round { divisor: 10, parts };
    cut_row(alloc, instance, &[], &cut, 3)
}

// Whether there is no row for this reason, which is told of this line.
fn is_refused(found: Result<Row, CheckFault>, line: u64, why: Why) -> bool {
    match found {
        Ok(_) => false,
        Err(fault) => fault == CheckFault::Rejected(Rejected { line, why }),
    }
}

// Whether a row has these terms, its right side, and whether it is an equation.
fn sides(rt: &impl Abort, found: Result<Row, CheckFault>, terms: &[Term]) -> (bool, i128, bool) {
    let row = found.expect(rt, "a row");
    (row.terms() == terms, row.right(), row.is_equal())
}

#[test]
fn rows_of_ls_cuts(rt: HostRuntime) {
    let alloc = rt.alloc();
    let instance = shop(alloc).expect(&rt, "an instance");
    let first = sides(&rt, ls(&rt, alloc, &instance, 1, &[true]), &[y(1, 2)]);
    assert_eq!(rt; first, (true, 2, false));
    let second = sides(
        &rt,
        ls(&rt, alloc, &instance, 2, &[false, true]),
        &[x(1, 1), y(2, 8)],
    );
    assert_eq!(rt; second, (true, 10, false));
}

#[test]
fn rows_of_price_cuts(rt: HostRuntime) {
    let alloc = rt.alloc();
    let instance = prompt(&rt, alloc);
    let found = sides(
        &rt,
        price(&rt, alloc, &instance, &[25, 1], &[1, 0]),
        &[y(1, 100), y(2, 6), s(1, 1)],
    );
    assert_eq!(rt; found, (true, 106, false));
}

#[test]
fn rows_of_block_cuts(rt: HostRuntime) {
    let alloc = rt.alloc();
    let instance = late(&rt, alloc);
    let found = sides(
        &rt,
        block(&rt, alloc, &instance, &[28, 28]),
        &[y(1, 100), y(2, 20), s(1, 1), s(2, 1), r(1, 2)],
    );
    assert_eq!(rt; found, (true, 28, false));
    let why = Why::Block {
        first: 1,
        last: 2,
        server: 2,
    };
    assert!(rt; is_refused(block(&rt, alloc, &instance, &[28, 48]), 3, why));
    assert!(rt; is_refused(block(&rt, alloc, &instance, &[28]), 3, Why::Range));
}

// The rows of the shop whose sum is rounded.
fn rounded() -> [RowName; 4] {
    [
        RowName::Balance(1, 1),
        RowName::Balance(1, 2),
        RowName::Link(1, 2),
        RowName::Capacity(1, 1),
    ]
}

#[test]
fn rows_of_rounding_cuts(rt: HostRuntime) {
    let alloc = rt.alloc();
    let instance = shop(alloc).expect(&rt, "an instance");
    let found = sides(&rt, round(&rt, alloc, &instance, rounded(), 1), &[y(2, 1)]);
    assert_eq!(rt; found, (true, 1, false));
}

#[test]
fn rounding_cuts_out_of_form(rt: HostRuntime) {
    let alloc = rt.alloc();
    let instance = shop(alloc).expect(&rt, "an instance");
    assert!(rt; is_refused(round(&rt, alloc, &instance, rounded(), -1), 6, Why::Sign));
    let large = round(&rt, alloc, &instance, rounded(), 1i128 << 126);
    assert!(rt; is_refused(large, 3, Why::TooLarge));
    for name in [RowName::Path(1), RowName::Cut(1), RowName::Capacity(1, 3)] {
        let [_, balance, link, _] = rounded();
        let none = [balance, name, link, link];
        assert!(rt; is_refused(round(&rt, alloc, &instance, none, 1), 5, Why::Range));
    }
}

#[test]
fn ls_cuts_out_of_form(rt: HostRuntime) {
    let alloc = rt.alloc();
    let instance = shop(alloc).expect(&rt, "an instance");
    assert!(rt; is_refused(ls(&rt, alloc, &instance, 0, &[]), 3, Why::Range));
    assert!(rt; is_refused(ls(&rt, alloc, &instance, 1, &[true, true]), 3, Why::Range));
    let past = ls(&rt, alloc, &instance, 3, &[true, true, true]);
    assert!(rt; is_refused(past, 3, Why::Range));
}

#[test]
fn price_cuts_out_of_form(rt: HostRuntime) {
    let alloc = rt.alloc();
    let instance = shop(alloc).expect(&rt, "an instance");
    let large = price(&rt, alloc, &instance, &[100_000_000_001, 1], &[1, 0]);
    assert!(rt; is_refused(large, 3, Why::Range));
    let short = price(&rt, alloc, &instance, &[1], &[1, 0]);
    assert!(rt; is_refused(short, 3, Why::Range));
}

// An item that is asked for in the second period alone, and comes a period after it is made.
fn delayed(rt: &impl Abort, alloc: Global) -> Instance {
    let only = Item {
        demand: &[0, 6],
        lead: 1,
        ..PROMPT
    };
    instance(alloc, 2, &[], &[only]).expect(rt, "an instance")
}

// The form comes before the lead time, and that before the potentials.
#[test]
fn cuts_of_an_item_with_a_lead_time(rt: HostRuntime) {
    let alloc = rt.alloc();
    let instance = delayed(&rt, alloc);
    assert!(rt; is_refused(ls(&rt, alloc, &instance, 1, &[true]), 3, Why::Lead));
    assert!(rt; is_refused(ls(&rt, alloc, &instance, 3, &[true]), 3, Why::Range));
    let row = price(&rt, alloc, &instance, &[25, 1], &[1, 0]);
    assert!(rt; is_refused(row, 3, Why::Lead));
    assert!(rt; is_refused(block(&rt, alloc, &instance, &[]), 3, Why::Lead));
}

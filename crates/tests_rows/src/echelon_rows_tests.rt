use crate::samples::terms_text;
use echelon::{EchelonItem, is_echelon_within_bounds};
use echelon_rows::{are_prices, are_steps, cost_terms_of, held_of, serving_prices, worth_of};
use std::alloc::Global;
use std::process::Abort;

// What a unit costs that a period makes for each of three.
fn prices(rt: &impl Abort, alloc: Global, backlogged: bool, server: u32) -> Vec<u64> {
    let unit = [0u64, 10, 0];
    let hold = [1u64, 2, 4];
    let back = [3u64, 5, 7];
    if !are_prices(&unit) || !are_prices(&hold) || !are_prices(&back) {
        panic!(rt; "prices past their limit");
    }
    if server < 1 || server > 3 {
        panic!(rt; "no such period");
    }
    serving_prices(alloc, &unit, &hold, &back, backlogged, server).expect(rt, "memory")
}

#[test]
fn prices_of_serving(rt: HostRuntime) {
    let alloc = rt.alloc();
    for (server, want) in [(1u32, [0u64, 1, 3]), (2, [13, 10, 12]), (3, [8, 5, 0])] {
        let found = prices(&rt, alloc, true, server);
        assert!(rt; found.as_slice() == &want[..]);
    }
    let in_time = prices(&rt, alloc, false, 2);
    assert!(rt; in_time.as_slice() == &[10u64, 10, 12][..]);
}

#[test]
fn sums_of_prices(rt: HostRuntime) {
    let price = [25u64, 1];
    if !are_prices(&price) {
        panic!(rt; "prices past their limit");
    }
    assert_eq!(rt; worth_of(&[4u128, 6], &price), 106);
    assert_eq!(rt; held_of(&[2u128, 3], &price), 53);
    assert!(rt; !are_prices(&[1, 100_000_000_001]));
    assert!(rt; !are_steps(&[1, 1_000_000_000_000_000_000_000_000_000_000_000_001]));
}

// The second of two items, of which one unit of the first takes three. The first may be owed.
fn part(rt: &impl Abort, alloc: Global) -> EchelonItem {
    EchelonItem {
        item: 2,
        demand: vec![in alloc; 4u128, 6].expect(rt, "memory"),
        opening: 0,
        end_min: 0,
        weights: vec![in alloc; 3u64, 1].expect(rt, "memory"),
        backs: vec![in alloc; true, false].expect(rt, "memory"),
        backlogged: true,
    }
}

// The text of the terms of its costs.
fn text_of_costs(rt: &impl Abort, alloc: Global) -> String {
    let setups = [100u128, 0];
    let prices = [5u64, 7];
    if !are_steps(&setups) || !are_prices(&prices) {
        panic!(rt; "prices past their limit");
    }
    let echelon = part(rt, alloc);
    if !is_echelon_within_bounds(&echelon) || echelon.demand.len() != 2 {
        panic!(rt; "past the limits");
    }
    let terms = cost_terms_of(alloc, &echelon, &setups, &prices, &prices, &prices).expect(
        rt, "memory",
    );
    terms_text(rt, alloc, terms.as_slice())
}

#[test]
fn terms_of_costs(rt: HostRuntime) {
    let found = text_of_costs(&rt, rt.alloc());
    assert_eq!(rt;
        found.as_str(),
        "5 x 2 1, 7 x 2 2, 100 y 2 1, 15 s 1 1, 21 s 1 2, 5 s 2 1, 7 s 2 2, 15 r 1 1, "
    );
}

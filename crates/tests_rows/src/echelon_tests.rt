use echelon::{
    EchelonItem, Explosion, MAX_ASKED, SingleItem, echelon_of, explosions_are_one,
    is_echelon_within_bounds, is_within_bounds, lead_free, net_of, positions, single_of,
};
use fixtures::{Item, PLAIN, chain_of, instance, instance_of};
use lot_model::{Draft, Instance, is_uncoupled};
use std::alloc::Global;
use std::process::Abort;

fn item(rt: &impl Abort, alloc: Global, net: u128, cost: u64, periods: usize) -> SingleItem {
    SingleItem {
        net: vec![in alloc; net; periods].expect(rt, "memory"),
        setup: vec![in alloc; cost; periods].expect(rt, "memory"),
        unit: vec![in alloc; cost; periods].expect(rt, "memory"),
        hold: vec![in alloc; cost; periods].expect(rt, "memory"),
        back: None,
    }
}

// Whether an item with these numbers in so many periods is within bounds, with backlog costs of so many periods.
fn is_item_within(
    rt: &impl Abort,
    alloc: Global,
    net: u128,
    cost: u64,
    periods: usize,
    back: Option<usize>,
) -> bool {
    let mut single = item(rt, alloc, net, cost, periods);
    if let Some(periods) = back {
        single.back = Some(vec![in alloc; 1u64; periods].expect(rt, "memory"));
    }
    is_within_bounds(&single)
}

#[test]
fn bounds_of_items(rt: HostRuntime) {
    for (net, cost, periods, back, within) in [
        (0u128, 0u64, 0usize, None, true),
        (8_333_333_333, 1_000_000_000, 120, None, true),
        (1, 1, 121, None, false),
        (1, 1_000_000_001, 1, None, false),
        (1_000_000_000_000, 1, 1, None, true),
        (1_000_000_000_001, 1, 1, None, false),
        (500_000_000_001, 1, 2, None, false),
        (u128::MAX, 1, 3, None, false),
        // backlog costs of too few periods
        (1, 1, 3, Some(2usize), false),
    ] {
        let found = is_item_within(&rt, rt.alloc(), net, cost, periods, back);
        assert_eq!(rt; found, within, "{net} {cost} {periods}");
    }
}

// The periods of an item with these net demands.
fn positions_of(rt: &impl Abort, alloc: Global, net: &[u128]) -> Vec<u32> {
    let net = net.to_vec(alloc).expect(rt, "memory");
    let mut single = item(rt, alloc, 0, 1, net.len());
    single.net = net;
    if !is_within_bounds(&single) {
        panic!(rt; "not within bounds");
    }
    positions(alloc, &single).expect(rt, "memory")
}

#[test]
fn positions_are_the_periods_with_a_net_demand(rt: HostRuntime) {
    let found = positions_of(&rt, rt.alloc(), &[0u128, 7, 0, 0, 1]);
    assert!(rt; found.as_slice() == &[2u32, 5][..]);
}

fn echelon(
    rt: &impl Abort,
    alloc: Global,
    demand: &[u128],
    opening: u128,
    end_min: u128,
) -> EchelonItem {
    EchelonItem {
        item: 1,
        demand: demand.to_vec(alloc).expect(rt, "memory"),
        opening,
        end_min,
        weights: vec![in alloc; 1u64].expect(rt, "memory"),
        backs: vec![in alloc; false].expect(rt, "memory"),
        backlogged: false,
    }
}

// Whether an echelon has these net demands, and whether so much of the opening stock is left.
fn has_net(
    rt: &impl Abort,
    alloc: Global,
    echelon: &EchelonItem,
    net: &[u128],
    left: &[u128],
) -> (bool, bool) {
    if !is_echelon_within_bounds(echelon) {
        panic!(rt; "not within bounds");
    }
    let found = net_of(alloc, echelon).expect(rt, "memory");
    (found.net.as_slice() == net, found.left.as_slice() == left)
}

// Whether an echelon with this demand, opening stock and required end stock has these net demands, and whether so much of the
// opening stock is left.
fn serves(
    rt: &impl Abort,
    alloc: Global,
    demand: &[u128],
    stocks: (u128, u128),
    net: &[u128],
    left: &[u128],
) -> (bool, bool) {
    let (opening, end_min) = stocks;
    let item = echelon(rt, alloc, demand, opening, end_min);
    has_net(rt, alloc, &item, net, left)
}

#[test]
fn opening_stock_serves_first(rt: HostRuntime) {
    let alloc = rt.alloc();
    let all = serves(&rt, alloc, &[3, 3], (7, 1), &[0, 0], &[4, 1]);
    let some = serves(&rt, alloc, &[4, 6, 2], (5, 3), &[0, 5, 5], &[1, 0, 3]);
    assert_eq!(rt; (all, some), ((true, true), (true, true)));
}

// Whether an echelon with this demand, opening stock and required end stock is within bounds.
fn is_asked_within(
    rt: &impl Abort,
    alloc: Global,
    demand: u128,
    opening: u128,
    end_min: u128,
) -> bool {
    let item = echelon(rt, alloc, &[demand], opening, end_min);
    is_echelon_within_bounds(&item)
}

#[test]
fn bounds_of_what_is_asked_of_echelons(rt: HostRuntime) {
    for (demand, opening, end_min, within) in [
        (0u128, 0u128, 0u128, true),
        (MAX_ASKED, 0, 0, true),
        (MAX_ASKED, 1, 0, false),
        (1, MAX_ASKED - 2, 1, true),
        (1, MAX_ASKED - 1, 1, false),
        (0, u128::MAX, u128::MAX, false),
    ] {
        let found = is_asked_within(&rt, rt.alloc(), demand, opening, end_min);
        assert_eq!(rt; found, within, "{demand} {opening} {end_min}");
    }
}

// Whether an echelon with so many items and periods is within bounds.
fn is_within(
    rt: &impl Abort,
    alloc: Global,
    items: usize,
    periods: usize,
    weight: u64,
    number: u32,
) -> bool {
    let item = EchelonItem {
        item: number,
        demand: vec![in alloc; 1u128; periods].expect(rt, "memory"),
        opening: 0,
        end_min: 0,
        weights: vec![in alloc; weight; items].expect(rt, "memory"),
        backs: vec![in alloc; false; items].expect(rt, "memory"),
        backlogged: false,
    };
    is_echelon_within_bounds(&item)
}

#[test]
fn bounds_of_the_lists_of_echelons(rt: HostRuntime) {
    let alloc = rt.alloc();
    for (items, periods, weight, number, within) in [
        (40usize, 120usize, 1_000_000_000_000u64, 40u32, true),
        (41, 120, 1, 1, false),
        (40, 121, 1, 1, false),
        (40, 120, 1_000_000_000_001, 1, false),
        (40, 120, 1, 41, false),
        (40, 120, 1, 0, false),
    ] {
        assert_eq!(rt;
            is_within(&rt, alloc, items, periods, weight, number),
            within,
            "{items} {periods} {weight} {number}"
        );
    }
}

// Whether an echelon of two items is within bounds, where the second one has this weight and may be late or
// not.
fn is_agreed(rt: &impl Abort, alloc: Global, weight: u64, back: bool, backlogged: bool) -> bool {
    let item = EchelonItem {
        item: 1,
        demand: vec![in alloc; 3u128].expect(rt, "memory"),
        opening: 0,
        end_min: 0,
        weights: vec![in alloc; 1, weight].expect(rt, "memory"),
        backs: vec![in alloc; false, back].expect(rt, "memory"),
        backlogged,
    };
    is_echelon_within_bounds(&item)
}

#[test]
fn what_an_echelon_says_of_backlogs_agrees(rt: HostRuntime) {
    let alloc = rt.alloc();
    for (weight, back, backlogged, within) in [
        (2u64, true, true, true),
        (2, true, false, false),
        (0, true, false, true),
        (0, true, true, false),
        (2, false, false, true),
        (2, false, true, false),
    ] {
        assert_eq!(rt;
            is_agreed(&rt, alloc, weight, back, backlogged),
            within,
            "{weight} {back} {backlogged}"
        );
    }
}

#[test]
fn an_echelon_says_of_each_item_if_it_may_be_late(rt: HostRuntime) {
    let alloc = rt.alloc();
    let mut item = echelon(&rt, alloc, &[3], 0, 0);
    item.backs = Vec::new(alloc);
    assert!(rt; !is_echelon_within_bounds(&item));
}

// An item that is asked for 10 and 11, with an opening stock of 3 and a required end stock of 4.
const ASKED: Item<'static> = Item {
    demand: &[10, 11],
    unit_cost: &[1, 2],
    setup_cost: &[5, 6],
    hold_cost: &[7, 8],
    backlog_cost: Some(&[9]),
    opening: 3,
    end_min: 4,
    ..PLAIN
};

// A part that is asked for 1 in the second period.
const PART: Item<'static> = Item {
    demand: &[0, 1],
    opening: 2,
    end_min: 5,
    ..PLAIN
};

// The only item of an instance by itself.
fn only(rt: &impl Abort, alloc: Global, instance: &Instance) -> SingleItem {
    if instance.items() != 1 || !is_uncoupled(instance) {
        panic!(rt; "not one item by itself");
    }
    single_of(alloc, instance, 1).expect(rt, "memory")
}

// This item by itself.
fn alone(rt: &impl Abort, alloc: Global) -> SingleItem {
    let instance = instance(alloc, 2, &[], &[ASKED]).expect(rt, "an instance");
    only(rt, alloc, &instance)
}

#[test]
fn an_item_of_an_instance_is_taken_by_itself(rt: HostRuntime) {
    let single = alone(&rt, rt.alloc());
    let is_net = single.net.as_slice() == [7u128, 15].as_slice();
    let is_setup = single.setup.as_slice() == [5u64, 6].as_slice();
    let is_unit = single.unit.as_slice() == [1u64, 2].as_slice();
    let is_hold = single.hold.as_slice() == [7u64, 8].as_slice();
    assert_eq!(rt;
        (is_net, is_setup, is_unit, is_hold),
        (true, true, true, true)
    );
    let back = single.back.expect(&rt, "no backlog costs");
    assert!(rt; back.as_slice() == [9u64, 9].as_slice());
}

// The parts "C" and "B", one of which takes three "C", and the item "A", one of which takes two "B", with lead times of "A" and
// of "B".
fn chain_with_leads(rt: &impl Abort, alloc: Global, first: i64, second: i64) -> Instance {
    let last = Item { name: "C", ..PART };
    let user = Item {
        lead: first,
        needs: &[("B", 2)],
        ..ASKED
    };
    let middle = Item {
        name: "B",
        lead: second,
        needs: &[("C", 3)],
        ..PART
    };
    instance(alloc, 2, &[], &[last, user, middle]).expect(rt, "an instance")
}

// The same chain, with no lead times.
fn chain(rt: &impl Abort, alloc: Global) -> Instance {
    chain_with_leads(rt, alloc, 0, 0)
}

// How many of the first item go into one of the second, and whether the items come in this order.
fn exploded(rt: &impl Abort, alloc: Global, instance: &Instance, order: &[u32]) -> (u64, bool) {
    if instance.items() != 3 {
        panic!(rt; "not three items");
    }
    let explosion = Explosion::of(alloc, instance).expect(rt, "memory");
    (explosion.weight(1, 2), explosion.order() == order)
}

// The echelon of an item, for which lead times don't count.
fn echelon_in(rt: &impl Abort, alloc: Global, instance: &Instance, item: u32) -> EchelonItem {
    if item < 1 || item > instance.items() {
        panic!(rt; "no such item");
    }
    let explosion = Explosion::of(alloc, instance).expect(rt, "memory");
    if !lead_free(instance, &explosion, item) {
        panic!(rt; "lead times count");
    }
    echelon_of(alloc, instance, &explosion, item).expect(rt, "memory")
}

// The echelon of an item of the chain.
fn echelon_in_chain(rt: &impl Abort, alloc: Global, item: u32) -> EchelonItem {
    let instance = chain(rt, alloc);
    echelon_in(rt, alloc, &instance, item)
}

#[test]
fn an_explosion_counts_what_goes_into_an_item(rt: HostRuntime) {
    let alloc = rt.alloc();
    let instance = chain(&rt, alloc);
    assert_eq!(rt; exploded(&rt, alloc, &instance, &[2u32, 3, 1]), (6, true));
}

#[test]
fn an_echelon_asks_for_what_its_items_go_into(rt: HostRuntime) {
    let echelon = echelon_in_chain(&rt, rt.alloc(), 1);
    // 6 * 10 and 6 * 11 + 3 * 1 + 1, 6 * 3 + 3 * 2 + 2, and 6 * 4 + 3 * 5 + 5.
    assert!(rt; echelon.demand.as_slice() == &[60u128, 70][..]);
    assert_eq!(rt; (echelon.opening, echelon.end_min), (26, 44));
    let is_weights = echelon.weights.as_slice() == &[1u64, 6, 3][..];
    let is_backs = echelon.backs.as_slice() == &[false, true, false][..];
    assert_eq!(rt;
        (is_weights, is_backs, echelon.backlogged),
        (true, true, true)
    );
}

#[test]
fn the_stock_of_an_echelon_serves_first(rt: HostRuntime) {
    let alloc = rt.alloc();
    let echelon = echelon_in_chain(&rt, alloc, 1);
    let found = has_net(&rt, alloc, &echelon, &[34u128, 114], &[0u128, 44]);
    assert_eq!(rt; found, (true, true));
}

#[test]
fn an_end_product_is_an_echelon_by_itself(rt: HostRuntime) {
    explosions_are_one();
    let echelon = echelon_in_chain(&rt, rt.alloc(), 2);
    assert_eq!(rt; (echelon.item, echelon.opening, echelon.end_min), (2, 3, 4));
    let is_demand = echelon.demand.as_slice() == &[10u128, 11][..];
    let is_weights = echelon.weights.as_slice() == &[0u64, 1, 0][..];
    assert_eq!(rt; (is_demand, is_weights), (true, true));
}

// Whether lead times don't count for "C", "A" and "B".
fn are_lead_free(rt: &impl Abort, alloc: Global, instance: &Instance) -> (bool, bool, bool) {
    if instance.items() != 3 {
        panic!(rt; "not three items");
    }
    let explosion = Explosion::of(alloc, instance).expect(rt, "memory");
    let c = lead_free(instance, &explosion, 1);
    let a = lead_free(instance, &explosion, 2);
    let b = lead_free(instance, &explosion, 3);
    (c, a, b)
}

#[test]
fn lead_times_count_for_all_that_an_item_goes_into(rt: HostRuntime) {
    let alloc = rt.alloc();
    for (first, second, c, a, b) in [
        (0i64, 0i64, true, true, true),
        (0, 1, false, true, false),
        (1, 0, false, false, false),
    ] {
        let instance = chain_with_leads(&rt, alloc, first, second);
        let found = are_lead_free(&rt, alloc, &instance);
        assert_eq!(rt; found, (c, a, b), "{first} {second}");
    }
}

// An item of a chain, of which nothing is asked.
const IDLE: Item<'static> = Item {
    unit_cost: &[1],
    setup_cost: &[1],
    hold_cost: &[1],
    ..PLAIN
};

// A chain of forty items, each of which takes two of the next. The first is asked for 1 in the last period.
fn forty(rt: &impl Abort, alloc: Global) -> Instance {
    let mut demand = [0i64; 120];
    demand[119] = 1;
    let first = Item {
        demand: &demand,
        ..IDLE
    };
    let draft = Draft {
        periods: 120,
        resources: Vec::new(alloc),
        items: chain_of(alloc, 120, 40, 2, &first, &IDLE).expect(rt, "memory"),
    };
    instance_of(alloc, draft).expect(rt, "an instance")
}

// The echelon of the last item of this chain.
fn echelon_of_forty(rt: &impl Abort, alloc: Global) -> EchelonItem {
    let instance = forty(rt, alloc);
    if instance.items() != 40 {
        panic!(rt; "not forty items");
    }
    echelon_in(rt, alloc, &instance, 40)
}

// The last net demand of an echelon.
fn last_net(rt: &impl Abort, alloc: Global, echelon: &EchelonItem) -> Option<u128> {
    if !is_echelon_within_bounds(echelon) {
        panic!(rt; "not within bounds");
    }
    let found = net_of(alloc, echelon).expect(rt, "memory");
    found.net.last().copied()
}

#[test]
fn the_last_of_a_chain_of_forty_has_a_large_echelon(rt: HostRuntime) {
    let alloc = rt.alloc();
    let echelon = echelon_of_forty(&rt, alloc);
    let weight = echelon.weights.first().copied();
    // 2 to the power of 39
    let most = 549_755_813_888;
    assert_eq!(rt;
        (weight, last_net(&rt, alloc, &echelon)),
        (Some(most), Some(u128::from(most)))
    );
}

ghost use Rattle.std.specs.Prelude.{IfSome};
ghost use Rattle.own_plan.specs.Made.{IsMade};

use fixtures::{Item, PLAIN, Resource, instance};
use heur_lags::{has_free_lots, improved_lagged, lagged_plan};
use lot_model::Instance;
use plan_rules::{Grid, Planned, complete_at_cost};
use std::alloc::Global;
use std::process::Abort;

// Boards that arrive a period after the saw starts them: a setup of 5, 2 a unit, and 1 a unit in stock.
const BOARD: Item<'static> = Item {
    name: "board",
    demand: &[0, 10, 0, 10],
    unit_cost: &[2],
    setup_cost: &[5],
    hold_cost: &[1],
    lead: 1,
    uses: &[("saw", 1, 2)],
    ..PLAIN
};

// Boards, with so many minutes at the saw in each period: a unit takes one, and a setup two.
fn boards(rt: &impl Abort, alloc: Global, board: Item<'_>, minutes: i64) -> Instance {
    let saw = Resource {
        name: "saw",
        capacity: &[minutes],
    };
    instance(alloc, 4, &[saw], &[board]).expect(rt, "an instance")
}

// What the plan costs that a walk from no lots finds.
fn walked_cost(rt: &impl Abort, alloc: Global, instance: &Instance) -> Option<u128> {
    let found = lagged_plan(alloc, instance, 1, 1_000_000).expect(rt, "memory");
    found.map(|planned| planned.cost)
}

// A plan with one lot of 20 in the first period, if it is feasible.
fn one_lot(rt: &impl Abort, alloc: Global, instance: &Instance) -> Option<Planned>
    ensures { IfSome result (IsMade instance.now) }
{
    let mut make = Grid::filled(alloc, instance.items(), instance.periods(), 0).expect(
        rt, "memory",
    );
    let mut setup = Grid::filled(alloc, instance.items(), instance.periods(), 0).expect(
        rt, "memory",
    );
    if instance.items() > 0 && instance.periods() > 0 {
        make.set(1, 1, 20);
        setup.set(1, 1, 1);
    }
    complete_at_cost(alloc, instance, make, setup).expect(rt, "memory")
}

// 20 units for 40, with two setups, or with one and ten units for two periods in stock where each lot has at least 12.
#[test]
fn lots_start_before_they_are_asked_for(rt: HostRuntime) {
    let alloc = rt.alloc();
    let free = boards(&rt, alloc, BOARD, 30);
    assert_eq!(rt; walked_cost(&rt, alloc, &free), Some(50));
    let bound = Item {
        min_lot: 12,
        ..BOARD
    };
    let large = boards(&rt, alloc, bound, 30);
    assert_eq!(rt; walked_cost(&rt, alloc, &large), Some(65));
}

// The saw has time for no lot of 12, and the first period can't wait for a lot.
#[test]
fn there_is_no_walk_to_what_is_impossible(rt: HostRuntime) {
    let alloc = rt.alloc();
    let bound = Item {
        min_lot: 12,
        ..BOARD
    };
    let short = boards(&rt, alloc, bound, 13);
    assert_eq!(rt; walked_cost(&rt, alloc, &short), None);
    let early = Item {
        demand: &[1, 0, 0, 0],
        ..BOARD
    };
    let late = boards(&rt, alloc, early, 30);
    assert_eq!(rt; walked_cost(&rt, alloc, &late), None);
}

// What a walk from that plan finds.
fn walked_from_one_lot(rt: &impl Abort, alloc: Global, instance: &Instance) -> Option<Planned>
    ensures { IfSome result (IsMade instance.now) }
{
    match one_lot(rt, alloc, instance) {
        Some(begun) => improved_lagged(alloc, instance, &begun, 1, 1_000_000).expect(rt, "memory"),
        None => None,
    }
}

// What a walk from what that one finds costs.
fn walked_twice(rt: &impl Abort, alloc: Global, instance: &Instance) -> Option<u128> {
    match walked_from_one_lot(rt, alloc, instance) {
        Some(found) => {
            let again = improved_lagged(alloc, instance, &found, 1, 1_000_000).expect(rt, "memory");
            again.map(|planned| planned.cost)
        }
        None => Some(0),
    }
}

// Two setups in the place of one, and then nothing better.
#[test]
fn walks_go_on_from_plans(rt: HostRuntime) {
    let alloc = rt.alloc();
    let free = boards(&rt, alloc, BOARD, 30);
    assert_eq!(rt;
        one_lot(&rt, alloc, &free).map(|planned| planned.cost),
        Some(65)
    );
    assert_eq!(rt;
        walked_from_one_lot(&rt, alloc, &free).map(|planned| planned.cost),
        Some(50)
    );
    assert_eq!(rt; walked_twice(&rt, alloc, &free), None);
}

// Without a lead time, where plans make 20 boards in all.
#[test]
fn lots_are_free_where_no_bound_binds(rt: HostRuntime) {
    let alloc = rt.alloc();
    let now = Item { lead: 0, ..BOARD };
    for (board, is_free) in [
        (now, true),
        (Item { min_lot: 1, ..now }, true),
        (Item { min_lot: 2, ..now }, false),
        (
            Item {
                max_lot: Some(20),
                ..now
            },
            true,
        ),
        (
            Item {
                max_lot: Some(19),
                ..now
            },
            false,
        ),
        (BOARD, false),
    ] {
        let model = boards(&rt, alloc, board, 30);
        assert_eq!(rt; has_free_lots(&model), is_free);
    }
}

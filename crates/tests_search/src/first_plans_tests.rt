ghost use Rattle.std.specs.Prelude.{◌≡◌};

use first_plans::{
    built_plan, candidates, improved, improved_by_families, own_period_is_one, own_period_plan,
};
use fixtures::{Item, PLAIN, Resource, instance};
use heur_build::net_demands;
use lot_model::Instance;
use plan_rules::{Grid, Plan, Planned};
use std::alloc::Global;
use std::process::Abort;
use work_clock::Deadline;

// An item with a setup of 5, 2 a unit, and 1 a unit in stock.
const MADE: Item<'static> = Item {
    unit_cost: &[2],
    setup_cost: &[5],
    hold_cost: &[1],
    ..PLAIN
};

// Tables of four legs each, of which there is one, and one is to be left.
const TABLE: Item<'static> = Item {
    name: "table",
    demand: &[3, 0, 2],
    opening: 1,
    end_min: 1,
    needs: &[("leg", 4)],
    ..MADE
};

// The saw, with so many minutes in each period.
fn saw(minutes: &[i64]) -> Resource {
    Resource {
        name: "saw",
        capacity: minutes,
    }
}

// Tables and their legs, of which there are five, with so many minutes at the saw in the last period. A leg takes a minute at
// the saw, and setting it up ten.
fn tables(rt: &impl Abort, alloc: Global, lead: i64, minutes: i64) -> Instance {
    let leg = Item {
        name: "leg",
        opening: 5,
        lead,
        uses: &[("saw", 1, 10)],
        ..MADE
    };
    instance(alloc, 3, &[saw(&[30, 30, minutes])], &[leg, TABLE]).expect(rt, "an instance")
}

// The own-period plan of tables, where there is one.
fn own_plan(rt: &impl Abort, alloc: Global, lead: i64, minutes: i64) -> Option<Planned> {
    let instance = tables(rt, alloc, lead, minutes);
    own_period_plan(alloc, &instance).expect(rt, "memory")
}

// Whether a plan makes these and has these setups, and whether it holds these and owes these, for each item and period.
fn is_plan(
    plan: &Plan,
    make: &[u64],
    setup: &[u64],
    stock: &[u64],
    backlog: &[u64],
) -> (bool, bool, bool, bool) {
    (
        plan.make.cells() == make,
        plan.setup.cells() == setup,
        plan.stock.cells() == stock,
        plan.backlog.cells() == backlog,
    )
}

#[test]
fn lots_are_made_when_they_are_asked_for(rt: HostRuntime) {
    own_period_is_one();
    let alloc = rt.alloc();
    // Tables 2, 0, 3, so legs 8, 0, 12 less the five that there are.
    let found = own_plan(&rt, alloc, 0, 22).expect(&rt, "no plan");
    let cells = is_plan(
        &found.plan,
        &[3, 0, 12, 2, 0, 3],
        &[1, 0, 1, 1, 0, 1],
        &[0, 0, 0, 0, 0, 1],
        &[0, 0, 0, 0, 0, 0],
    );
    assert_eq!(rt; cells, (true, true, true, true));
    assert_eq!(rt; found.cost, 61);
}

// A minute less at the saw, and a lead time.
#[test]
fn lots_without_time_have_no_plan(rt: HostRuntime) {
    let alloc = rt.alloc();
    assert!(rt; own_plan(&rt, alloc, 0, 21).is_none());
    assert!(rt; own_plan(&rt, alloc, 1, 22).is_none());
}

// The costs of the candidates.
fn costs(rt: &impl Abort, alloc: Global, instance: &Instance) -> Vec<u128> {
    let mut list = Vec::new(alloc);
    for found in candidates(alloc, instance, Deadline::none()).expect(rt, "memory") {
        list.push(found.cost).expect(rt, "memory");
    }
    list
}

// The least cost of the candidates of tables, and None where there are none.
fn least(rt: &impl Abort, alloc: Global, lead: i64, minutes: i64) -> Option<u128> {
    let instance = tables(rt, alloc, lead, minutes);
    let found = costs(rt, alloc, &instance);
    found.iter().min().copied()
}

// Whether a candidate of tables without a lead time has this cost.
fn is_among(rt: &impl Abort, alloc: Global, minutes: i64, cost: u128) -> bool {
    let instance = tables(rt, alloc, 0, minutes);
    let found = costs(rt, alloc, &instance);
    found.contains(&cost)
}

// No plan costs less than 57: each makes five tables and fifteen legs, for 40, and tables in the first period, which asks for
// three where there is one. All of them in it have 3, 3 and 1 in stock, with a setup of each item. To make some later takes a
// setup, and one of legs or four legs in stock, which is 9 at least, and saves 6 in stock at most.
#[test]
fn plans_to_begin_with(rt: HostRuntime) {
    let alloc = rt.alloc();
    // The own-period plan is among them. It has no time with a minute less at the saw, and the cheapest one still has.
    assert_eq!(rt; least(&rt, alloc, 0, 22), Some(57));
    assert!(rt; is_among(&rt, alloc, 22, 61));
    assert_eq!(rt; least(&rt, alloc, 0, 21), Some(57));
    assert_eq!(rt; least(&rt, alloc, 1, 22), None);
}

// Puts a number for an item and a period, where the grid has them.
fn put(grid: &mut Grid, item: u32, period: u32, number: u64)
    ensures items { grid.new.items ≡ grid.old.items }
    ensures periods { grid.new.periods ≡ grid.old.periods }
{
    let is_item = 1 <= item && item <= grid.items();
    let is_period = 1 <= period && period <= grid.periods();
    if is_item && is_period {
        grid.set(item, period, number);
    }
}

// What must be made of an item for each period, where so many tables are made.
fn nets_of(
    rt: &impl Abort,
    alloc: Global,
    instance: &Instance,
    item: u32,
    made: [u64; 3],
) -> Vec<u128> {
    if item < 1 || item > instance.items() {
        panic!(rt; "no such item");
    }
    let [first, second, third] = made;
    let mut make = Grid::filled(alloc, instance.items(), instance.periods(), 0).expect(
        rt, "memory",
    );
    put(&mut make, 2, 1, first);
    put(&mut make, 2, 2, second);
    put(&mut make, 2, 3, third);
    net_demands(alloc, instance, item, &make).expect(rt, "memory")
}

// Whether this must be made of an item for each period, where so many tables are made.
fn are_nets(
    rt: &impl Abort,
    alloc: Global,
    instance: &Instance,
    item: u32,
    made: [u64; 3],
    nets: [u128; 3],
) -> bool {
    let found = nets_of(rt, alloc, instance, item, made);
    found.as_slice() == &nets[..]
}

#[test]
fn what_must_be_made_for_each_period(rt: HostRuntime) {
    let alloc = rt.alloc();
    let instance = tables(&rt, alloc, 0, 22);
    // Of three and two tables that are asked for and one that is to be left, there is one. Of four legs a table there are five.
    for (item, made, nets) in [
        (2u32, [0u64, 0, 0], [2u128, 0, 3]),
        (1, [0, 0, 0], [0, 0, 0]),
        (1, [2, 0, 3], [3, 0, 12]),
        (1, [5, 0, 0], [15, 0, 0]),
        (1, [1, 0, 4], [0, 0, 15]),
        (1, [1, 1, 3], [0, 3, 12]),
    ] {
        assert!(rt;
            are_nets(&rt, alloc, &instance, item, made, nets),
            "item {item}"
        );
    }
}

// The plan with a setup of legs in the first period, and of tables in the first and the last one.
fn wanted_plan(rt: &impl Abort, alloc: Global, instance: &Instance) -> Planned {
    let mut wanted = Grid::filled(alloc, instance.items(), instance.periods(), 0).expect(
        rt, "memory",
    );
    put(&mut wanted, 1, 1, 1);
    put(&mut wanted, 2, 1, 1);
    put(&mut wanted, 2, 3, 1);
    built_plan(alloc, instance, &wanted)
        .expect(rt, "memory")
        .expect(rt, "no plan")
}

#[test]
fn a_plan_with_the_setups_that_are_wanted(rt: HostRuntime) {
    let alloc = rt.alloc();
    let instance = tables(&rt, alloc, 0, 22);
    let found = wanted_plan(&rt, alloc, &instance);
    // All legs in the first period: 15 minutes and the setup, and twelve legs in stock over two periods.
    let is_made = found.plan.make.cells() == &[15, 0, 0, 2, 0, 3][..];
    assert_eq!(rt; (is_made, found.cost), (true, 61 - 5 + 24));
}

// What the own-period plan costs once it is improved by so many tries.
fn cost_improved(rt: &impl Abort, alloc: Global, instance: &Instance, tries: u32) -> u128 {
    let own = own_period_plan(alloc, instance)
        .expect(rt, "memory")
        .expect(rt, "no plan");
    let better = improved(alloc, instance, own, tries).expect(rt, "memory");
    better.cost
}

#[test]
fn a_plan_is_improved(rt: HostRuntime) {
    let alloc = rt.alloc();
    let instance = tables(&rt, alloc, 0, 22);
    // Without the setup in the last period the tables are made in the first one, and with them the legs.
    assert_eq!(rt; cost_improved(&rt, alloc, &instance, 0), 61);
    assert_eq!(rt; cost_improved(&rt, alloc, &instance, 1000), 57);
}

// Boards, six of them in the first period, of which four are made in a period at most.
fn late_boards(rt: &impl Abort, alloc: Global) -> Instance {
    let board = Item {
        name: "board",
        demand: &[6, 0, 0],
        backlog_cost: Some(&[1]),
        uses: &[("saw", 1, 0)],
        ..MADE
    };
    instance(alloc, 3, &[saw(&[4])], &[board]).expect(rt, "an instance")
}

// The plan with a setup wherever there may be one.
fn plan_with_all(rt: &impl Abort, alloc: Global, instance: &Instance) -> Planned {
    let wanted = Grid::filled(alloc, instance.items(), instance.periods(), 1).expect(rt, "memory");
    built_plan(alloc, instance, &wanted)
        .expect(rt, "memory")
        .expect(rt, "no plan")
}

#[test]
fn what_may_be_late_is_made_late(rt: HostRuntime) {
    let alloc = rt.alloc();
    let instance = late_boards(&rt, alloc);
    let found = plan_with_all(&rt, alloc, &instance);
    // Only four of six boards can be made in a period, so four are owed for a period: 12, two setups and 4.
    let is_made = found.plan.make.cells() == &[2, 4, 0][..];
    let is_owed = found.plan.backlog.cells() == &[4, 0, 0][..];
    assert_eq!(rt; (is_made, is_owed, found.cost), (true, true, 26));
}

// Boards and beams, one of each in each period, with so many minutes at the saw.
fn boards_and_beams(rt: &impl Abort, alloc: Global, minutes: i64) -> Instance {
    let board = Item {
        name: "board",
        demand: &[1],
        uses: &[("saw", 1, 0)],
        ..MADE
    };
    let beam = Item {
        name: "beam",
        ..board
    };
    instance(alloc, 3, &[saw(&[minutes])], &[board, beam]).expect(rt, "an instance")
}

// What the own-period plan costs, and what it costs once it is improved by families.
fn costs_by_families(rt: &impl Abort, alloc: Global, minutes: i64) -> (u128, u128) {
    let instance = boards_and_beams(rt, alloc, minutes);
    let own = own_period_plan(alloc, &instance)
        .expect(rt, "memory")
        .expect(rt, "no plan");
    let cost = own.cost;
    let better = improved_by_families(alloc, &instance, own, Deadline::none()).expect(rt, "memory");
    (cost, better.cost)
}

#[test]
fn one_family_after_the_other_is_improved(rt: HostRuntime) {
    let alloc = rt.alloc();
    // All of an item in the first period costs 6, a setup and 2 and 1 in stock, and one more setup each lot: 14 and not 21.
    // With five minutes in a period, one item has two lots: 6, two setups and 1.
    assert_eq!(rt; costs_by_families(&rt, alloc, 6), (42, 28));
    assert_eq!(rt; costs_by_families(&rt, alloc, 5), (42, 31));
}

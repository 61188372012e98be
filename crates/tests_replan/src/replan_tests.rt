ghost use Rattle.std.specs.Prelude.{◌≤◌};
ghost use Rattle.plan_rules.specs.Held.{AllFit};

use certificate::Claim;
use fixtures::{Item, MADE, PLAIN, Resource, instance};
use lot_model::Instance;
use lot_sizing::limits::MAX_PERIODS;
use plan_rules::{Grid, Plan};
use replan::{Replanned, Rest, replan, rest, total};
use search_plugins::Nothing;
use search_result::Found;
use std::alloc::Global;
use std::process::Abort;

// A plan that makes so much of each item in each period, with a setup. Its stocks and backlogs are none, whatever is made.
fn plan_making(rt: &impl Abort, alloc: Global, instance: &Instance, made: u64) -> Plan
    ensures { AllFit instance.now result }
{
    let (items, periods) = (instance.items(), instance.periods());
    Plan {
        make: Grid::filled(alloc, items, periods, made).expect(rt, "memory"),
        setup: Grid::filled(alloc, items, periods, 1).expect(rt, "memory"),
        stock: Grid::filled(alloc, items, periods, 0).expect(rt, "memory"),
        backlog: Grid::filled(alloc, items, periods, 0).expect(rt, "memory"),
    }
}

// What was spent, and the rest: its periods, and of its last item and first resource the opening stock, the first and the last
// demand, and the first time.
fn described(rt: &impl Abort, alloc: Global, found: &Rest) -> String {
    let later = &found.instance;
    let (items, periods, spent) = (later.items(), later.periods(), found.spent);
    let (opening, asked, last) = (
        later.opening(items),
        later.demand(items, 1),
        later.demand(items, periods),
    );
    let time = if later.resources() > 0 {
        later.capacity(1, 1)
    } else {
        0
    };
    format!(in alloc;
        "spent {spent} periods {periods} opening {opening} demand {asked} to {last} time {time}"
    ).expect(rt, "memory")
}

// What comes of a start that makes so much of each item in each period, with a setup.
fn told(rt: &impl Abort, alloc: Global, instance: &Instance, made: u64, first: u32) -> String {
    let plan = plan_making(rt, alloc, instance, made);
    match rest(alloc, instance, &plan.make, &plan.setup, first) {
        Ok(Some(found)) => described(rt, alloc, &found),
        Ok(None) => String::from_str(alloc, "none").expect(rt, "memory"),
        Err(fault) => fault.to_string(alloc).expect(rt, "memory"),
    }
}

// What is claimed of the later periods, and of the whole.
fn claimed(rt: &impl Abort, alloc: Global, found: &Found, whole: Option<u128>) -> String {
    let whole = whole.unwrap_or(0);
    match found.certificate.claim {
        Claim::Optimal(cost) => format!(in alloc; "optimal {cost} total {whole}").expect(
            rt, "memory",
        ),
        Claim::Infeasible => String::from_str(alloc, "infeasible").expect(rt, "memory"),
        Claim::Bound(bound) => format!(in alloc; "bound {bound} total {whole}").expect(
            rt, "memory",
        ),
    }
}

// What is found after such a start with so many nodes, where nothing is proposed.
fn planned(
    rt: &impl Abort,
    alloc: Global,
    instance: &Instance,
    made: u64,
    first: u32,
    budget: u64,
) -> String
    requires { 1 ≤ budget }
{
    let plan = plan_making(rt, alloc, instance, made);
    match replan(
        alloc,
        &Nothing,
        &Nothing,
        (),
        instance,
        &plan,
        first,
        budget,
    ) {
        Ok(Replanned::Planned { rest, found }) => claimed(rt, alloc, &found, total(&rest, &found)),
        Ok(Replanned::NoStart) => String::from_str(alloc, "no start").expect(rt, "memory"),
        Err(fault) => fault.to_string(alloc).expect(rt, "memory"),
    }
}

// One item on a resource with six time units in each period.
fn tight(rt: &impl Abort, alloc: Global, periods: u32, demand: &[i64]) -> Instance {
    let mill = Resource {
        name: "mill",
        capacity: &[6],
    };
    let item = Item {
        demand,
        uses: &[("mill", 1, 1)],
        ..MADE
    };
    instance(alloc, periods, &[mill], &[item]).expect(rt, "an instance")
}

#[test]
fn starts_leave_a_rest(rt: HostRuntime) {
    let alloc = rt.alloc();
    let instance = tight(&rt, alloc, 2, &[2, 8]);
    for (made, first, left, found) in [
        (
            5u64,
            1u32,
            "spent 13 periods 1 opening 3 demand 8 to 8 time 6",
            "optimal 10 total 23",
        ),
        (
            2,
            1,
            "spent 10 periods 1 opening 0 demand 8 to 8 time 6",
            "infeasible",
        ),
        (1, 1, "none", "no start"),
        (6, 1, "none", "no start"),
        (
            5,
            0,
            "spent 0 periods 2 opening 0 demand 2 to 8 time 6",
            "optimal 23 total 23",
        ),
        (5, 2, "first", "first"),
        (5, u32::MAX, "first", "first"),
    ] {
        assert_eq!(rt; told(&rt, alloc, &instance, made, first).as_str(), left);
        assert_eq!(rt;
            planned(&rt, alloc, &instance, made, first, 1_000).as_str(),
            found
        );
    }
}

// A setup without a lot is kept, and one node leaves open what the two later periods cost: the root closes to 20.
#[test]
fn a_bound_goes_on(rt: HostRuntime) {
    let alloc = rt.alloc();
    let instance = tight(&rt, alloc, 3, &[0, 2, 8]);
    let text = planned(&rt, alloc, &instance, 0, 1, 1);
    assert_eq!(rt; text.as_str(), "bound 20 total 30");
}

// A model of an item that may be late, which is asked for so much and then for 4.
fn late(rt: &impl Abort, alloc: Global, asked: i64) -> Instance {
    let demand = [asked, 4];
    let item = Item {
        demand: &demand,
        unit_cost: &[1],
        setup_cost: &[10],
        hold_cost: &[1],
        backlog_cost: Some(&[2, 3]),
        ..PLAIN
    };
    instance(alloc, 2, &[], &[item]).expect(rt, "an instance")
}

// Where 4 are left they serve the second period. What is past the limit is refused, though the plan may be feasible.
#[test]
fn what_is_owed_is_asked_for_first(rt: HostRuntime) {
    let alloc = rt.alloc();
    for (asked, made, left, found) in [
        (
            5i64,
            2u64,
            "spent 18 periods 1 opening 0 demand 7 to 7 time 0",
            "optimal 17 total 35",
        ),
        (
            5,
            9,
            "spent 23 periods 1 opening 4 demand 4 to 4 time 0",
            "optimal 0 total 23",
        ),
        (0, 1_000_000_001, "M5 item 1 opening", "M5 item 1 opening"),
        (0, u64::MAX, "M5 item 1 opening", "M5 item 1 opening"),
        (
            1_000_000_000,
            0,
            "M5 item 1 demand period 1",
            "M5 item 1 demand period 1",
        ),
    ] {
        let instance = late(&rt, alloc, asked);
        assert_eq!(rt; told(&rt, alloc, &instance, made, 1).as_str(), left);
        assert_eq!(rt; planned(&rt, alloc, &instance, made, 1, 1).as_str(), found);
    }
}

// An item that is asked for one in each period, at 2 a unit, 3 a setup and 4 a unit in stock.
const STEADY: Item<'static> = Item {
    demand: &[1],
    unit_cost: &[2],
    setup_cost: &[3],
    hold_cost: &[4],
    ..PLAIN
};

#[test]
fn the_first_lead_is_told(rt: HostRuntime) {
    let alloc = rt.alloc();
    let later = Item {
        name: "B",
        lead: 1,
        ..STEADY
    };
    let two = instance(alloc, 2, &[], &[STEADY, later]).expect(&rt, "an instance");
    assert_eq!(rt; told(&rt, alloc, &two, 1, 1).as_str(), "lead item 2");
    assert_eq!(rt; planned(&rt, alloc, &two, 1, 1, 1).as_str(), "lead item 2");
}

#[test]
fn a_long_start_is_kept(rt: HostRuntime) {
    let alloc = rt.alloc();
    let long = instance(alloc, MAX_PERIODS, &[], &[STEADY]).expect(&rt, "an instance");
    let first = MAX_PERIODS - 1;
    assert_eq!(rt;
        told(&rt, alloc, &long, 1, first).as_str(),
        "spent 595 periods 1 opening 0 demand 1 to 1 time 0"
    );
    assert_eq!(rt;
        planned(&rt, alloc, &long, 1, first, 1).as_str(),
        "optimal 5 total 600"
    );
}

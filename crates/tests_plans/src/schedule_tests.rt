ghost use Rattle.lot_sizing.specs.Plan.{IsFeasible};
ghost use Rattle.plan_rules.specs.Held.{AllFit, plan_of};

use fixtures::{Item, PLAIN, Resource, instance, instance_of, item_named};
use lot_model::{Draft, DraftItem, DraftResource, DraftUse, Instance};
use lot_schedule::{check_schedule, read_schedule, schedule, write_schedule};
use plan_file::read_plan;
use plan_rules::{Grid, Plan, complete, judge};
use std::alloc::Global;
use std::process::Abort;

// An item that takes a time unit of `m` for each unit and each setup.
const ON_M: Item<'static> = Item {
    uses: &[("m", 1, 1)],
    ..PLAIN
};

// It is asked for in both periods, or five times in the first.
const STEADY: Item<'static> = Item {
    demand: &[2, 8],
    ..ON_M
};

const FIRST: Item<'static> = Item {
    demand: &[5, 0],
    ..ON_M
};

const SECOND: Item<'static> = Item {
    name: "B",
    demand: &[3, 0],
    ..ON_M
};

const THIRD: Item<'static> = Item {
    name: "C",
    ..SECOND
};

// The resource of this name with so much time in each period.
fn resource<'a>(name: &'a str, time: &'a [i64]) -> Resource<'a> {
    Resource {
        name,
        capacity: time,
    }
}

// One item, of which 10 are asked for.
fn one(rt: &impl Abort, alloc: Global) -> Instance {
    instance(alloc, 2, &[resource("m", &[6])], &[STEADY]).expect(rt, "an instance")
}

const FIVES: &str = "A,1,5,1,3,0\nA,2,5,1,0,0\n";

// Two items, of which 5 and 3 are asked for in the first of two periods.
fn two(rt: &impl Abort, alloc: Global) -> Instance {
    instance(alloc, 2, &[resource("m", &[10])], &[FIRST, SECOND]).expect(rt, "an instance")
}

const BOTH: &str = "A,1,5,1,0,0\nA,2,0,0,0,0\nB,1,3,1,0,0\nB,2,0,0,0,0\n";

// Three items, two of which have lots of one length in period 1, and none of which has one in period 2.
fn three(rt: &impl Abort, alloc: Global) -> Instance {
    instance(alloc, 2, &[resource("m", &[14])], &[FIRST, SECOND, THIRD]).expect(rt, "an instance")
}

const SINGLES: &str =
    "A,1,5,1,0,0\nA,2,0,0,0,0\nB,1,3,1,0,0\nB,2,0,0,0,0\nC,1,3,1,0,0\nC,2,0,0,0,0\n";

const ON_BOTH: Item<'static> = Item {
    demand: &[2, 0],
    uses: &[("m", 1, 1), ("k", 2, 0)],
    ..PLAIN
};

const SET_UP: Item<'static> = Item {
    name: "B",
    demand: &[1],
    uses: &[("k", 0, 3)],
    ..PLAIN
};

// Two resources, the later of which is the first by name. One item takes time on both, the other for setups alone.
fn apart(rt: &impl Abort, alloc: Global) -> Instance {
    let resources = [resource("m", &[9]), resource("k", &[9])];
    instance(alloc, 2, &resources, &[ON_BOTH, SET_UP]).expect(rt, "an instance")
}

// In the second period A is set up for nothing.
const SETUPS: &str = "A,1,2,1,0,0\nA,2,0,1,0,0\nB,1,1,1,0,0\nB,2,1,1,0,0\n";

// The text with these rows.
fn with_header(rt: &impl Abort, alloc: Global, rows: &str) -> String {
    format!(in alloc; "resource,period,item,start,end\n{rows}").expect(rt, "memory")
}

// A plan file with these records.
fn with_plan_header(rt: &impl Abort, alloc: Global, records: &str) -> String {
    format!(in alloc; "item,period,make,setup,stock,backlog\n{records}").expect(rt, "memory")
}

// Whether the schedule of a plan has these rows.
fn is_laid(rt: &impl Abort, alloc: Global, instance: &Instance, plan: &str, rows: &str) -> bool {
    let plan = with_plan_header(rt, alloc, plan);
    let plan = read_plan(alloc, instance, plan.as_bytes()).expect(rt, "a plan");
    judge(instance, &plan).expect(rt, "a feasible plan");
    let slots = schedule(alloc, instance, &plan).expect(rt, "memory");
    let found = write_schedule(alloc, instance, &slots).expect(rt, "memory");
    found.as_slice() == with_header(rt, alloc, rows).as_bytes()
}

#[test]
fn lots_are_laid_shortest_first(rt: HostRuntime) {
    let alloc = rt.alloc();
    for (instance, plan, rows) in [
        (one(&rt, alloc), FIVES, "m,1,A,0,6\nm,2,A,0,6\n"),
        (two(&rt, alloc), BOTH, "m,1,B,0,4\nm,1,A,4,10\n"),
        (
            three(&rt, alloc),
            SINGLES,
            "m,1,B,0,4\nm,1,C,4,8\nm,1,A,8,14\n",
        ),
        (
            apart(&rt, alloc),
            SETUPS,
            "m,1,A,0,3\nm,2,A,0,1\nk,1,B,0,3\nk,1,A,3,7\nk,2,B,0,3\n",
        ),
    ] {
        assert!(rt; is_laid(&rt, alloc, &instance, plan, rows), "{rows}");
    }
}

// What is found of the rows of a schedule.
fn checked(rt: &impl Abort, alloc: Global, instance: &Instance, plan: &str, rows: &str) -> String {
    let plan = with_plan_header(rt, alloc, plan);
    let plan = read_plan(alloc, instance, plan.as_bytes()).expect(rt, "a plan");
    judge(instance, &plan).expect(rt, "a feasible plan");
    let text = with_header(rt, alloc, rows);
    match read_schedule(alloc, instance, text.as_bytes()) {
        Err(fault) => fault.to_string(alloc).expect(rt, "memory"),
        Ok(slots) => match check_schedule(instance, &plan, &slots) {
            Ok(()) => String::from_str(alloc, "accepted").expect(rt, "memory"),
            Err(broken) => broken.to_string(alloc).expect(rt, "memory"),
        },
    }
}

#[test]
fn slots_are_checked_in_their_order(rt: HostRuntime) {
    let alloc = rt.alloc();
    let three = three(&rt, alloc);
    for (rows, want) in [
        ("m,1,B,0,4\nm,1,C,4,8\nm,1,A,8,14\n", "accepted"),
        ("m,1,A,8,14\nm,1,C,0,4\r\n\"m\",1,B,4,8", "accepted"),
        ("m,2,A,0,0\n", "rejected slot 1 row 1"),
        ("m,1,B,0,4\nm,1,B,4,8\n", "rejected slot 1 row 2"),
        ("m,1,B,0,4\nm,1,B,0,4\n", "rejected slot 1 row 2"),
        ("m,1,B,0,3\n", "rejected slot 2 row 1"),
        ("m,1,B,0,18446744073709551615\n", "rejected slot 2 row 1"),
        ("m,1,B,11,15\n", "rejected slot 3 row 1"),
        ("m,1,B,0,4\nm,1,C,3,7\n", "rejected slot 4 row 2"),
        ("m,1,C,3,7\n", "rejected slot 5 resource 1 period 1 item 1"),
        ("", "rejected slot 5 resource 1 period 1 item 1"),
        ("m,1,B,0,4\nm,1,D,4,8\nm\n", "slot row 2"),
        ("k,1,B,0,4\n", "slot row 1"),
        ("m,3,B,0,4\n", "slot row 1"),
        ("m,0,B,0,4\n", "slot row 1"),
        ("m,1,B,0\n", "slot row 1"),
        ("m,1,B,0,4,4\n", "slot row 1"),
        ("m,1,B,00,4\n", "slot row 1"),
        ("m,1,B,0,18446744073709551616\n", "slot row 1"),
        ("m,1,B,18446744073709551615,0\n", "rejected slot 2 row 1"),
    ] {
        let found = checked(&rt, alloc, &three, SINGLES, rows);
        assert_eq!(rt; found.as_str(), want, "{rows}");
    }
    let one = one(&rt, alloc);
    for (rows, want) in [
        ("m,1,A,0,6\nm,2,A,0,6\n", "accepted"),
        ("m,1,A,0,6\n", "rejected slot 5 resource 1 period 2 item 1"),
        ("m,1,A,1,7\nm,2,A,0,6\n", "rejected slot 3 row 1"),
    ] {
        let found = checked(&rt, alloc, &one, FIVES, rows);
        assert_eq!(rt; found.as_str(), want, "{rows}");
    }
}

#[test]
fn a_header_is_asked_for(rt: HostRuntime) {
    let alloc = rt.alloc();
    let instance = one(&rt, alloc);
    for text in ["", "m,1,A,0,6\n", "resource,period,item,start\n"] {
        match read_schedule(alloc, &instance, text.as_bytes()) {
            Ok(_) => panic!(rt; "read"),
            Err(fault) => {
                let found = fault.to_string(alloc).expect(&rt, "memory");
                assert_eq!(rt; found.as_str(), "slot header");
            }
        }
    }
}

// As many resources as there may be, r1, r2 and so on, with just the time that 40 lots of two units take.
fn twenty(rt: &impl Abort, alloc: Global) -> Vec<DraftResource> {
    let mut list = Vec::new(alloc);
    for number in 1..21u32 {
        let mut capacity = Vec::new(alloc);
        capacity.resize(120, 80i64).expect(rt, "memory");
        list.push(DraftResource {
            name: format!(in alloc; "r{number}").expect(rt, "memory"),
            capacity,
        })
        .expect(rt, "memory");
    }
    list
}

// A time unit of each of them for a unit and for a setup.
fn all_uses(rt: &impl Abort, alloc: Global) -> Vec<DraftUse> {
    let mut list = Vec::new(alloc);
    for number in 1..21u32 {
        list.push(DraftUse {
            resource: format!(in alloc; "r{number}").expect(rt, "memory"),
            unit: 1,
            setup: 1,
        })
        .expect(rt, "memory");
    }
    list
}

// An item that is asked for one in each period.
const ONES: Item<'static> = Item {
    demand: &[1],
    ..PLAIN
};

// As many items as there may be, each of which takes time on all of them.
fn forty(rt: &impl Abort, alloc: Global) -> Vec<DraftItem> {
    let mut list = Vec::new(alloc);
    for number in 1..41u32 {
        let name = format!(in alloc; "i{number}").expect(rt, "memory");
        let mut made = item_named(alloc, 120, &ONES, name).expect(rt, "memory");
        made.uses = all_uses(rt, alloc);
        list.push(made).expect(rt, "memory");
    }
    list
}

// How many slots the schedule of a plan has, and whether they are read again from their text and accepted.
fn read_again(rt: &impl Abort, alloc: Global, instance: &Instance, plan: &Plan) -> (usize, bool)
    requires fits { AllFit instance.now plan.now }
    requires feasible { IsFeasible instance.now (plan_of plan.now) }
{
    let slots = schedule(alloc, instance, plan).expect(rt, "memory");
    let text = write_schedule(alloc, instance, &slots).expect(rt, "memory");
    let read = read_schedule(alloc, instance, &text).expect(rt, "a schedule");
    let is_same = read == slots;
    (
        slots.len(),
        is_same && check_schedule(instance, plan, &read).is_ok(),
    )
}

// The same of the plan that makes one of each item in each period.
fn all_laid(rt: &impl Abort, alloc: Global, instance: &Instance) -> (usize, bool) {
    let make = Grid::filled(alloc, instance.items(), instance.periods(), 1).expect(rt, "memory");
    let setup = Grid::filled(alloc, instance.items(), instance.periods(), 1).expect(rt, "memory");
    match complete(alloc, instance, make, setup).expect(rt, "memory") {
        Some(plan) => read_again(rt, alloc, instance, &plan),
        None => panic!(rt; "not feasible"),
    }
}

#[test]
fn the_largest_plan_has_its_schedule(rt: HostRuntime) {
    let alloc = rt.alloc();
    let draft = Draft {
        periods: 120,
        resources: twenty(&rt, alloc),
        items: forty(&rt, alloc),
    };
    let found = all_laid(
        &rt,
        alloc,
        &instance_of(alloc, draft).expect(&rt, "an instance"),
    );
    assert_eq!(rt; found, (40 * 20 * 120, true));
}

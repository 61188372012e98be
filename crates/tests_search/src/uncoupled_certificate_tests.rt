use cert_checker::check;
use certificate::{Claim, is_writable, read_certificate, write_certificate};
use fixtures::{Item, PLAIN, instance, instance_alike};
use lot_model::{Instance, is_uncoupled};
use lot_sizing::limits::{MAX_ITEMS, MAX_PERIODS};
use search_result::{Found, RootSays};
use std::alloc::Global;
use std::process::Abort;
use uncoupled::plan_uncoupled;

// All of A is made in the first period, and all of B in the second.
const BEST: &str = "lotcert 1\nclaim optimal 134\ncuts 2\n\
    block 1 f 100 20 g 0 0 h 1 1 b 0 0 p 100 106\n\
    block 2 f 100 20 g 0 0 h 1 1 b 2 2 p 28 28\n\
    linear 1 2\npart cut 1 1\npart cut 2 1\nend\n";

// The largest demand and cost.
const MOST: i64 = 1_000_000_000;

// Of 16 units 10 are asked for, and 5 may be left.
const FULL: &str = "lotcert 1\nclaim infeasible\ncuts 0\nfarkas 3\n\
    part balance 2 1 -1\npart balance 2 2 -1\npart endmax 2 1\nend\n";

// An item that is asked for 4 and 6, with setup costs 100 and 20 and hold cost 1.
const FIRST: Item<'static> = Item {
    demand: &[4, 6],
    setup_cost: &[100, 20],
    hold_cost: &[1],
    ..PLAIN
};

// Another one.
const SECOND: Item<'static> = Item { name: "B", ..FIRST };

// What is found of an instance, once the checker accepts it.
fn accepted(rt: &impl Abort, alloc: Global, instance: &Instance) -> Found {
    if !is_uncoupled(instance) {
        panic!(rt; "coupled");
    }
    let found = plan_uncoupled(alloc, instance).expect(rt, "memory");
    if check(alloc, instance, &found.certificate, found.plan.as_ref()).is_err() {
        panic!(rt; "not accepted");
    }
    found
}

// The text of a certificate, once it is read.
fn read_text(rt: &impl Abort, alloc: Global, bytes: &[u8]) -> Vec<u8> {
    let read = read_certificate(alloc, bytes).expect(rt, "not read");
    write_certificate(alloc, &read).expect(rt, "memory")
}

// The text of what is found, once it is read back.
fn text(rt: &impl Abort, alloc: Global, found: &Found) -> Vec<u8> {
    let bytes = write_certificate(alloc, &found.certificate).expect(rt, "memory");
    let again = read_text(rt, alloc, &bytes);
    if again.as_slice() != bytes.as_slice() {
        panic!(rt; "another certificate");
    }
    bytes
}

// Whether what is found is read back as this text.
fn is_text(rt: &impl Abort, alloc: Global, found: &Found, want: &str) -> bool {
    let bytes = text(rt, alloc, found);
    bytes.as_slice() == want.as_bytes()
}

// What is found of A and of another item, once the checker accepts it.
fn found_with(rt: &impl Abort, alloc: Global, other: Item) -> Found {
    let instance = instance(alloc, 2, &[], &[FIRST, other]).expect(rt, "an instance");
    accepted(rt, alloc, &instance)
}

// What is found of A and of B, which may be late.
fn found_late(rt: &impl Abort, alloc: Global) -> Found {
    let owed = Item {
        backlog_cost: Some(&[2]),
        ..SECOND
    };
    found_with(rt, alloc, owed)
}

// What is found of A and of B, of which more is left than may be.
fn found_full(rt: &impl Abort, alloc: Global) -> Found {
    let full = Item {
        opening: 16,
        end_max: Some(5),
        ..SECOND
    };
    found_with(rt, alloc, full)
}

// How much is made of the first of two items in the first of two periods, and of the second one in the second.
fn made(rt: &impl Abort, found: &Found) -> (u64, u64) {
    match &found.plan {
        Some(plan) => {
            if (plan.make.items(), plan.make.periods()) != (2, 2) {
                panic!(rt; "another instance");
            }
            (plan.make.get(1, 1), plan.make.get(2, 2))
        }
        None => panic!(rt; "no plan"),
    }
}

#[test]
fn a_best_plan_is_proved(rt: HostRuntime) {
    let alloc = rt.alloc();
    let found = found_late(&rt, alloc);
    let certificate = &found.certificate;
    assert_eq!(rt;
        (certificate.claim, certificate.cuts.len()),
        (Claim::Optimal(134), 2)
    );
    assert_eq!(rt; (found.root, found.nodes), (RootSays::Uncoupled, 1));
    assert_eq!(rt;
        (made(&rt, &found), is_text(&rt, alloc, &found, BEST)),
        ((10, 10), true)
    );
}

#[test]
fn that_there_is_no_room_is_proved(rt: HostRuntime) {
    let alloc = rt.alloc();
    let found = found_full(&rt, alloc);
    let claim = found.certificate.claim;
    assert_eq!(rt; (claim, found.plan.is_none()), (Claim::Infeasible, true));
    assert_eq!(rt; (found.root, found.nodes), (RootSays::Uncoupled, 1));
    assert!(rt; is_text(&rt, alloc, &found, FULL));
}

// What is claimed of one item with the largest amounts in one period.
fn largest(rt: &impl Abort, alloc: Global) -> Claim {
    let only = Item {
        demand: &[MOST],
        unit_cost: &[MOST],
        setup_cost: &[MOST],
        ..PLAIN
    };
    let instance = instance(alloc, 1, &[], &[only]).expect(rt, "an instance");
    accepted(rt, alloc, &instance).certificate.claim
}

#[test]
fn the_largest_amounts_are_proved(rt: HostRuntime) {
    let alloc = rt.alloc();
    assert_eq!(rt;
        largest(&rt, alloc),
        Claim::Optimal(1_000_000_001_000_000_000)
    );
}

// What is found of as many items and periods as there may be, which are asked for a unit in each period.
fn found_most(rt: &impl Abort, alloc: Global) -> Found {
    let item = Item {
        demand: &[1],
        setup_cost: &[5],
        ..PLAIN
    };
    let instance = instance_alike(alloc, MAX_PERIODS, &[], MAX_ITEMS, &item).expect(
        rt,
        "an instance",
    );
    accepted(rt, alloc, &instance)
}

#[test]
fn the_most_items_are_proved(rt: HostRuntime) {
    let alloc = rt.alloc();
    let found = found_most(&rt, alloc);
    // One setup of each item, in the first period.
    let certificate = &found.certificate;
    assert_eq!(rt;
        (certificate.claim, certificate.cuts.len()),
        (Claim::Optimal(200), 40)
    );
    assert!(rt; is_writable(&found.certificate));
    text(&rt, alloc, &found);
}

use cert_checker::{check, lines_are_bytes};
use certificate::{Certificate, Claim, Leaf, Tree, read_certificate, write_certificate};
use fixtures::{Item, MACHINE, MADE, PLAIN, Resource, instance, instance_alike, shop};
use lot_model::Instance;
use lp_root::{Root, RootSays, root};
use std::alloc::Global;
use std::process::Abort;

// The machine, with this capacity in each period.
fn machine(capacity: &[i64]) -> Resource {
    Resource {
        name: "m",
        capacity,
    }
}

// The text of a certificate of the cuts and the leaf.
fn text_of(rt: &impl Abort, alloc: Global, claim: Claim, found: Root) -> Vec<u8> {
    let certificate = Certificate {
        version: 1,
        claim,
        cuts: found.cuts,
        tree: Tree::Leaf(found.leaf.expect(rt, "no leaf")),
    };
    write_certificate(alloc, &certificate).expect(rt, "memory")
}

// Whether the cuts and the leaf, as a certificate that is written and read back, prove a claim.
fn proves(rt: &impl Abort, alloc: Global, instance: &Instance, claim: Claim, found: Root) -> bool {
    lines_are_bytes();
    let bytes = text_of(rt, alloc, claim, found);
    if bytes.len() > 10_000 {
        panic!(rt; "too long");
    }
    match read_certificate(alloc, &bytes) {
        Ok(read) => check(alloc, instance, &read, None).is_ok(),
        Err(_) => panic!(rt; "not read"),
    }
}

// Whether the root of an instance proves a claim.
fn root_proves(rt: &impl Abort, alloc: Global, instance: &Instance, claim: Claim) -> bool {
    let found = root(alloc, instance).expect(rt, "memory");
    proves(rt, alloc, instance, claim, found)
}

// What is said at the root, the number of its cuts, and whether there is no leaf.
fn said(rt: &impl Abort, alloc: Global, instance: &Instance) -> (RootSays, usize, bool) {
    let found = root(alloc, instance).expect(rt, "memory");
    (found.says, found.cuts.len(), found.leaf.is_none())
}

// Whether the root's leaf is one of a sum of rows, and whether it is one that refutes them.
fn kinds(rt: &impl Abort, alloc: Global, instance: &Instance) -> (bool, bool) {
    let found = root(alloc, instance).expect(rt, "memory");
    (
        matches!(&found.leaf, Some(Leaf::Linear { .. })),
        matches!(&found.leaf, Some(Leaf::Farkas { .. })),
    )
}

#[test]
fn a_shop_is_closed(rt: HostRuntime) {
    let alloc = rt.alloc();
    let instance = shop(alloc).expect(&rt, "an instance");
    let (says, cuts, _) = said(&rt, alloc, &instance);
    assert_eq!(rt; (says, cuts >= 2), (RootSays::Closed(20), true));
    assert_eq!(rt; kinds(&rt, alloc, &instance), (true, false));
    assert!(rt; root_proves(&rt, alloc, &instance, Claim::Bound(20)));
    assert!(rt; !root_proves(&rt, alloc, &instance, Claim::Bound(21)));
}

// A, which is asked for in the second period, and two of B that go into each.
fn bill(rt: &impl Abort, alloc: Global) -> Instance {
    let upper = Item {
        demand: &[0, 5],
        setup_cost: &[10],
        hold_cost: &[3],
        needs: &[("B", 2)],
        ..PLAIN
    };
    let lower = Item {
        name: "B",
        setup_cost: &[10],
        hold_cost: &[1],
        ..PLAIN
    };
    instance(alloc, 2, &[], &[upper, lower]).expect(rt, "an instance")
}

#[test]
fn a_bill_is_closed(rt: HostRuntime) {
    let alloc = rt.alloc();
    let instance = bill(&rt, alloc);
    let (says, _, _) = said(&rt, alloc, &instance);
    assert_eq!(rt; says, RootSays::Closed(20));
    assert!(rt; root_proves(&rt, alloc, &instance, Claim::Bound(20)));
}

// One item of which 10 are asked for, with 9 hours on the machine.
fn too_little(rt: &impl Abort, alloc: Global) -> Instance {
    let only = Item {
        demand: &[10],
        uses: &[("m", 1, 0)],
        ..PLAIN
    };
    instance(alloc, 1, &[machine(&[9])], &[only]).expect(rt, "an instance")
}

#[test]
fn too_little_time_is_empty(rt: HostRuntime) {
    let alloc = rt.alloc();
    let instance = too_little(&rt, alloc);
    let (says, _, _) = said(&rt, alloc, &instance);
    assert_eq!(rt; says, RootSays::Empty);
    assert_eq!(rt; kinds(&rt, alloc, &instance), (false, true));
    assert!(rt; root_proves(&rt, alloc, &instance, Claim::Infeasible));
}

// 40 items over 60 periods on the machine.
fn large(rt: &impl Abort, alloc: Global) -> Instance {
    let item = Item {
        demand: &[1],
        setup_cost: &[1],
        hold_cost: &[1],
        uses: &[("m", 1, 0)],
        ..PLAIN
    };
    instance_alike(alloc, 60, &[machine(&[100])], 40, &item).expect(rt, "an instance")
}

#[test]
fn a_large_program_is_skipped(rt: HostRuntime) {
    let alloc = rt.alloc();
    let instance = large(&rt, alloc);
    // 9,740 rows and 7,200 columns.
    let skipped = RootSays::Skipped { cells: 70_144_941 };
    assert_eq!(rt; said(&rt, alloc, &instance), (skipped, 0, true));
}

// An item that takes no time on the machine.
const ALONE: Item<'static> = Item { uses: &[], ..MADE };

// That item, beside the machine.
fn by_itself(rt: &impl Abort, alloc: Global) -> Instance {
    instance(alloc, 2, &[MACHINE], &[ALONE]).expect(rt, "an instance")
}

#[test]
fn an_item_by_itself_is_uncoupled(rt: HostRuntime) {
    let alloc = rt.alloc();
    let instance = by_itself(&rt, alloc);
    assert_eq!(rt; said(&rt, alloc, &instance), (RootSays::Uncoupled, 0, true));
}

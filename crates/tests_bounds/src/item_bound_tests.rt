use certificate::{Certificate, Claim, Tree, write_certificate};
use fixtures::{Item, PLAIN, instance};
use item_bound::{apart, apart_is_one, apart_leaf};
use lot_model::Instance;
use std::alloc::Global;
use std::process::Abort;

// A is made in period 2, and so are the 10 units of B that go into it.
const COUPLED: &str = "lotcert 1\nclaim bound 20\ncuts 2\n\
    block 1 f 10 10 g 0 0 h 3 3 b 0 0 p 10\n\
    block 2 f 10 10 g 0 0 h 0 0 b 0 0 p 10\n\
    linear 1 2\npart cut 1 1\npart cut 2 1\nend\n";

// Of 5 units 4 are left after the first period, and 2 after the second one.
const LEFT_OVER: &str = "lotcert 1\nclaim bound 12\ncuts 1\n\
    block 1 f 10 10 g 0 0 h 2 2 b 0 0 p\n\
    linear 1 1\npart cut 1 1\nend\n";

// All is made in period 2, and 4 units are owed after period 1.
const OWED: &str = "lotcert 1\nclaim bound 28\ncuts 1\n\
    block 1 f 100 20 g 0 0 h 1 1 b 2 2 p 28 28\n\
    linear 1 1\npart cut 1 1\nend\n";

// B goes into A, which takes a period: neither is lead-free.
const LATE: &str = "lotcert 1\nclaim bound 0\ncuts 0\nlinear 1 0\nend\n";

// A, of which 5 are asked for in period 2, and of B 2 go into each.
const PRODUCT: Item<'static> = Item {
    demand: &[0, 5],
    setup_cost: &[10],
    hold_cost: &[3],
    needs: &[("B", 2)],
    ..PLAIN
};

// B, that goes into A.
const PART: Item<'static> = Item {
    name: "B",
    setup_cost: &[10],
    hold_cost: &[1],
    ..PLAIN
};

// A certificate that says what the items cost apart.
fn certificate_of(rt: &impl Abort, alloc: Global, instance: &Instance) -> Certificate {
    let found = apart(alloc, instance).expect(rt, "memory");
    let leaf = apart_leaf(alloc, 0, found.cuts.len() as u32).expect(rt, "memory");
    Certificate {
        version: 1,
        claim: Claim::Bound(found.amount),
        cuts: found.cuts,
        tree: Tree::Leaf(leaf),
    }
}

// Whether this is the text of a certificate that says what the items cost apart.
fn is_text(rt: &impl Abort, alloc: Global, items: &[Item], want: &str) -> bool {
    let instance = instance(alloc, 2, &[], items).expect(rt, "an instance");
    let certificate = certificate_of(rt, alloc, &instance);
    let bytes = write_certificate(alloc, &certificate).expect(rt, "memory");
    bytes.as_slice() == want.as_bytes()
}

// A component costs its setups; what is left over is held; a backlog is owed; and a late item adds nothing.
#[test]
fn what_items_cost_apart(rt: HostRuntime) {
    let alloc = rt.alloc();
    apart_is_one();
    let late = Item { lead: 1, ..PRODUCT };
    // Of which 5 are there at first.
    let full = Item {
        demand: &[1, 2],
        setup_cost: &[10],
        hold_cost: &[2],
        opening: 5,
        ..PLAIN
    };
    // Which may be late, at 2 for each unit and period.
    let owed = Item {
        demand: &[4, 6],
        setup_cost: &[100, 20],
        hold_cost: &[1],
        backlog_cost: Some(&[2]),
        ..PLAIN
    };
    for (items, want) in [
        (&[PRODUCT, PART][..], COUPLED),
        (&[full][..], LEFT_OVER),
        (&[owed][..], OWED),
        (&[late, PART][..], LATE),
    ] {
        assert!(rt; is_text(&rt, alloc, items, want), "{want}");
    }
}

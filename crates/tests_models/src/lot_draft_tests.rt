// The refusals of a draft are seen as the lines that a run prints of a model; here is what a run doesn't show: the order of a
// draft's own rules before those of a text, and the numbers of names.
use fixtures::{Item, MACHINE, PLAIN, draft_of};
use lot_draft::{Draft, item_named, later_fault, plain_fault, resource_named};
use std::alloc::Global;
use std::process::Abort;

// An item that takes two of B and time of the resource.
const FIRST: Item<'static> = Item {
    demand: &[2, 8],
    setup_cost: &[10],
    hold_cost: &[1],
    needs: &[("B", 2)],
    uses: &[("m", 1, 1)],
    ..PLAIN
};

// B, which takes nothing.
const SECOND: Item<'static> = Item {
    name: "B",
    demand: &[2, 8],
    setup_cost: &[10],
    hold_cost: &[1],
    ..PLAIN
};

// The draft of the resource, an item and B over two periods.
fn draft(rt: &impl Abort, alloc: Global, first: Item) -> Draft {
    draft_of(alloc, 2, &[MACHINE], &[first, SECOND]).expect(rt, "memory")
}

// What a draft is refused for first, written.
fn refusal(rt: &impl Abort, alloc: Global, draft: &Draft) -> String {
    if let Some(fault) = plain_fault(draft) {
        return fault.to_string(alloc).expect(rt, "memory");
    }
    match later_fault(draft) {
        Some(fault) => fault.to_string(alloc).expect(rt, "memory"),
        None => String::from_str(alloc, "none").expect(rt, "memory"),
    }
}

#[test]
fn a_draft_within_the_limits_has_no_fault(rt: HostRuntime) {
    let draft = draft(&rt, rt.alloc(), FIRST);
    assert_eq!(rt; refusal(&rt, rt.alloc(), &draft).as_str(), "none");
}

// The numbers of names among the items A and B, and among the resources, which are m alone.
fn named(draft: &Draft, item: &str, resource: &str) -> (Option<u32>, Option<u32>) {
    if draft.items.len() > 40 || draft.resources.len() > 20 {
        return (Some(0), Some(0));
    }
    (
        item_named(&draft.items, item),
        resource_named(&draft.resources, resource),
    )
}

#[test]
fn names_have_numbers(rt: HostRuntime) {
    let draft = draft(&rt, rt.alloc(), FIRST);
    let found = (named(&draft, "B", "m"), named(&draft, "m", "A"));
    assert_eq!(rt; found, ((Some(2), Some(1)), (None, None)));
}

// What a draft over so many periods is refused for first whose first item has a name and a demand out of form, with its items
// or without them.
fn refusal_over(rt: &impl Abort, alloc: Global, periods: i64, has_items: bool) -> String {
    let misnamed = Item {
        name: "A B",
        demand: &[2, -8],
        ..FIRST
    };
    let mut d = draft(rt, alloc, misnamed);
    d.periods = periods;
    if !has_items {
        d.items.clear();
    }
    refusal(rt, alloc, &d)
}

#[test]
fn counts_come_before_names_and_numbers(rt: HostRuntime) {
    for (periods, has_items, want) in [
        (121i64, true, "M5 root periods"),
        (2, true, "M7 item 1"),
        (2, false, "M5 root item"),
    ] {
        assert_eq!(rt;
            refusal_over(&rt, rt.alloc(), periods, has_items).as_str(),
            want
        );
    }
}

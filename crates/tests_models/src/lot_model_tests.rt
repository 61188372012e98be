use fixtures::{
    Item, PLAIN, Resource, alike_of, chain_of, draft_of, instance, instance_of, item_named,
    items_of,
};
use lot_model::{Draft, DraftItem, DraftNeed, DraftRefusal, DraftResource, Instance, is_uncoupled};
use lot_sizing::limits::{MAX_BILL_LINES, MAX_ITEMS, MAX_RESOURCES};
use std::alloc::Global;
use std::process::Abort;

// An item over two periods.
const FIRST: Item<'static> = Item {
    demand: &[10, 11],
    unit_cost: &[2, 3],
    setup_cost: &[5, 6],
    hold_cost: &[7, 8],
    opening: 3,
    end_min: 4,
    ..PLAIN
};

// Another one, which is asked for one unit at the end.
const SECOND: Item<'static> = Item {
    name: "B",
    demand: &[0, 1],
    ..FIRST
};

// The refusal of a draft as it is written, and how many items come back.
fn refusal(rt: &impl Abort, alloc: Global, draft: Draft) -> (String, usize) {
    match Instance::from_draft(alloc, draft) {
        Err(DraftRefusal::Refused { fault, draft }) => {
            (
                fault.to_string(alloc).expect(rt, "memory"),
                draft.items.len(),
            )
        }
        _ => (String::from_str(alloc, "none").expect(rt, "memory"), 0),
    }
}

// Two items, of which the first takes two of the second, which takes time of a resource. The first may be late.
fn parent_and_component(rt: &impl Abort, alloc: Global) -> Instance {
    let parent = Item {
        backlog_cost: Some(&[1, 9]),
        needs: &[("B", 2)],
        ..FIRST
    };
    let component = Item {
        end_max: Some(6),
        uses: &[("m", 1, 2)],
        ..SECOND
    };
    let machine = Resource {
        name: "m",
        capacity: &[40, 50],
    };
    instance(alloc, 2, &[machine], &[parent, component]).expect(rt, "an instance")
}

#[test]
fn an_instance_has_the_names_of_its_draft(rt: HostRuntime) {
    let instance = parent_and_component(&rt, rt.alloc());
    assert_eq!(rt;
        (instance.periods(), instance.items(), instance.resources()),
        (2, 2, 1)
    );
    assert_eq!(rt;
        (instance.item_name(2), instance.resource_name(1)),
        ("B", "m")
    );
    assert_eq!(rt; instance.capacity(1, 2), 50);
}

#[test]
fn an_instance_has_the_costs_of_its_draft(rt: HostRuntime) {
    let instance = parent_and_component(&rt, rt.alloc());
    assert_eq!(rt; (instance.periods(), instance.items()), (2, 2));
    assert_eq!(rt; (instance.demand(1, 2), instance.unit_cost(1, 2)), (11, 3));
    assert_eq!(rt;
        (instance.setup_cost(2, 2), instance.hold_cost(2, 1)),
        (6, 7)
    );
    assert_eq!(rt;
        (instance.backlog_cost(1, 2), instance.backlog_cost(2, 2)),
        (Some(9), None)
    );
}

#[test]
fn an_instance_has_the_stocks_of_its_draft(rt: HostRuntime) {
    let instance = parent_and_component(&rt, rt.alloc());
    assert_eq!(rt; instance.items(), 2);
    assert_eq!(rt; (instance.opening(1), instance.end_min(1)), (3, 4));
    assert_eq!(rt; (instance.end_max(1), instance.end_max(2)), (7, 6));
    // 10 + 11 + 7 - 3, and 0 + 1 + 6 - 3 with twice that.
    assert_eq!(rt;
        (instance.largest_total(1), instance.largest_total(2)),
        (25, 54)
    );
}

#[test]
fn an_instance_has_the_weights_and_ranks_of_its_bill(rt: HostRuntime) {
    let instance = parent_and_component(&rt, rt.alloc());
    assert_eq!(rt; instance.items(), 2);
    assert_eq!(rt; (instance.weight(1, 1), instance.weight(1, 2)), (1, 0));
    assert_eq!(rt; (instance.weight(2, 1), instance.weight(2, 2)), (2, 1));
    let ranks = instance.ranks();
    assert_eq!(rt; ranks.len(), 2);
    assert!(rt; ranks[0] < ranks[1]);
}

// The last component of an item.
fn last_need(instance: &Instance, item: u32) -> Option<(u32, u64)> {
    if item < 1 || item > instance.items() {
        return None;
    }
    let mut last = None;
    for need in instance.needs(item) {
        last = Some((need.item, need.quantity));
    }
    last
}

// The last resource of an item.
fn last_use(instance: &Instance, item: u32) -> Option<(u32, u64, u64)> {
    if item < 1 || item > instance.items() {
        return None;
    }
    let mut last = None;
    for usage in instance.uses(item) {
        last = Some((usage.resource, usage.unit, usage.setup));
    }
    last
}

#[test]
fn an_instance_has_the_lines_of_its_draft(rt: HostRuntime) {
    let instance = parent_and_component(&rt, rt.alloc());
    assert_eq!(rt; instance.items(), 2);
    assert_eq!(rt; last_need(&instance, 1), Some((2, 2)));
    assert_eq!(rt; last_use(&instance, 2), Some((1, 1, 2)));
    assert_eq!(rt; (instance.needs(1).len(), instance.needs(2).len()), (1, 0));
    assert_eq!(rt; (instance.uses(1).len(), instance.uses(2).len()), (0, 1));
    assert!(rt; !is_uncoupled(&instance));
}

#[test]
fn a_model_without_lines_is_uncoupled(rt: HostRuntime) {
    let instance = instance(rt.alloc(), 2, &[], &[FIRST, SECOND]).expect(&rt, "an instance");
    assert!(rt; is_uncoupled(&instance));
}

// The refusal of two items.
fn refusal_of(rt: &impl Abort, alloc: Global, first: Item, second: Item) -> (String, usize) {
    refusal(
        rt,
        alloc,
        draft_of(alloc, 2, &[], &[first, second]).expect(rt, "memory"),
    )
}

// Cycles are refused before backlog costs of components.
#[test]
fn components_are_refused_in_their_order(rt: HostRuntime) {
    let late = Item {
        backlog_cost: Some(&[1]),
        ..SECOND
    };
    let twice = Item {
        demand: &[0, 1],
        needs: &[("B", 2)],
        ..FIRST
    };
    let once = Item {
        needs: &[("B", 1)],
        ..twice
    };
    let back = Item {
        needs: &[("A", 1)],
        ..late
    };
    for (first, second, want) in [(twice, late, "M11 item 2"), (once, back, "M10 item 1")] {
        let (text, items) = refusal_of(&rt, rt.alloc(), first, second);
        assert_eq!(rt; (text.as_str(), items), (want, 2));
    }
}

// The refusal of a chain of forty items, each of which takes a million of the next; a unit of the first is asked for.
fn refusal_of_chain(rt: &impl Abort, alloc: Global) -> (String, usize) {
    let first = Item {
        demand: &[0, 1],
        ..PLAIN
    };
    let draft = Draft {
        periods: 2,
        resources: Vec::new(alloc),
        items: chain_of(alloc, 2, 40, 1_000_000, &first, &PLAIN).expect(rt, "memory"),
    };
    refusal(rt, alloc, draft)
}

#[test]
fn a_chain_of_forty_is_past_the_bound_at_the_fourth(rt: HostRuntime) {
    let (text, count) = refusal_of_chain(&rt, rt.alloc());
    assert_eq!(rt; (text.as_str(), count), ("M12 item 4", 40));
}

// The most periods that a draft may have.
const PERIODS: usize = 120;

// An item over all periods, without a stock and a demand.
const LONG: Item<'static> = Item {
    unit_cost: &[1_000_000_000],
    setup_cost: &[1_000_000_000],
    hold_cost: &[1_000_000_000],
    ..PLAIN
};

// As many items as there may be, of which all but the last two have no lines.
fn longest(rt: &impl Abort, alloc: Global, last: &[Item]) -> Draft {
    let mut items = alike_of(alloc, PERIODS, MAX_ITEMS - 2, &LONG).expect(rt, "memory");
    for item in items_of(alloc, PERIODS, last).expect(rt, "memory") {
        items.push(item).expect(rt, "memory");
    }
    Draft {
        periods: PERIODS as i64,
        resources: Vec::new(alloc),
        items,
    }
}

// The refusal of these.
fn longest_refusal(rt: &impl Abort, alloc: Global, last: &[Item]) -> (String, usize) {
    refusal(rt, alloc, longest(rt, alloc, last))
}

// By a cycle, a backlog cost, a total, and crossed ends.
#[test]
fn the_last_of_the_most_items_is_refused(rt: HostRuntime) {
    let before = Item {
        name: "i39",
        ..LONG
    };
    let end = Item {
        name: "i40",
        ..LONG
    };
    let cyclic = Item {
        needs: &[("i40", 1)],
        ..end
    };
    let user = Item {
        needs: &[("i40", 1)],
        ..before
    };
    let late = Item {
        backlog_cost: Some(&[1]),
        ..end
    };
    let asked = Item {
        demand: &[1_000_000],
        needs: &[("i40", 1_000_000)],
        ..before
    };
    let crossed = Item {
        end_min: 1,
        end_max: Some(0),
        ..end
    };
    for (last, want) in [
        ([before, cyclic], "M10 item 40"),
        ([user, late], "M11 item 40"),
        ([asked, end], "M12 item 40"),
        ([before, crossed], "M13 item 40"),
    ] {
        let (text, items) = longest_refusal(&rt, rt.alloc(), &last);
        assert_eq!(rt; (text.as_str(), items), (want, 40));
    }
}

// A name of one or two digits.
fn name(rt: &impl Abort, alloc: Global, number: u32) -> String {
    format!(in alloc; "i{number}").expect(rt, "memory")
}

// A unit of the item of a number.
fn unit_of(rt: &impl Abort, alloc: Global, number: u32) -> DraftNeed {
    DraftNeed {
        item: name(rt, alloc, number),
        quantity: 1,
    }
}

// An item that takes a unit of each of the next so many.
fn taking_next(rt: &impl Abort, alloc: Global, number: u32, count: u32) -> DraftItem {
    let mut made = item_named(alloc, PERIODS, &LONG, name(rt, alloc, number)).expect(rt, "memory");
    for step in 0..count {
        let other = number.saturating_add(step).saturating_add(1);
        made.needs
            .push(unit_of(rt, alloc, other))
            .expect(rt, "memory");
    }
    made
}

// Lines of one unit each: each item takes the next twelve, as far as there are so many lines.
fn most_lines(rt: &impl Abort, alloc: Global) -> Vec<DraftItem> {
    let mut items = Vec::new(alloc);
    let mut left = MAX_BILL_LINES;
    for number in 1..MAX_ITEMS + 1 {
        let count = left.min(12).min(MAX_ITEMS - number);
        items
            .push(taking_next(rt, alloc, number, count))
            .expect(rt, "memory");
        left = left.saturating_sub(count);
    }
    items
}

// As many resources as there may be.
fn most_resources(rt: &impl Abort, alloc: Global) -> Vec<DraftResource> {
    let mut resources = Vec::new(alloc);
    for number in 1..MAX_RESOURCES + 1 {
        resources
            .push(DraftResource {
                name: name(rt, alloc, number),
                capacity: vec![in alloc; 1_000_000_000i64; PERIODS].expect(rt, "memory"),
            })
            .expect(rt, "memory");
    }
    resources
}

// A model with as much of all as there may be, but for one item that uses every resource.
fn largest(rt: &impl Abort, alloc: Global) -> Instance {
    let draft = Draft {
        periods: PERIODS as i64,
        resources: most_resources(rt, alloc),
        items: most_lines(rt, alloc),
    };
    instance_of(alloc, draft).expect(rt, "an instance")
}

// How many lines the items have of what they take.
fn lines_of(instance: &Instance) -> usize {
    let mut lines = 0usize;
    for number in 1..MAX_ITEMS + 1 {
        if number <= instance.items() {
            lines = instance.needs(number).len().saturating_add(lines);
        }
    }
    lines
}

#[test]
fn the_largest_model_is_made_and_read(rt: HostRuntime) {
    let instance = largest(&rt, rt.alloc());
    assert_eq!(rt; instance.items(), MAX_ITEMS);
    assert_eq!(rt; instance.resources(), MAX_RESOURCES);
    assert_eq!(rt; instance.periods(), PERIODS as u32);
    assert_eq!(rt; lines_of(&instance), MAX_BILL_LINES as usize);
    assert_eq!(rt; instance.capacity(20, 120), 1_000_000_000);
    assert_eq!(rt; instance.setup_cost(40, 120), 1_000_000_000);
    assert_eq!(rt; instance.weight(2, 1), 1);
}

// Pegs of small plans, counted by hand, and of the largest.
use fixtures::{Item, PLAIN, instance, instance_of, item_named};
use lot_model::{Draft, DraftNeed, Instance};
use pegging::{peg, write_pegs};
use plan_rules::{Grid, complete};
use std::alloc::Global;
use std::process::Abort;

// An item that costs nothing, with room for 10 in the end.
const ROOMY: Item<'static> = Item {
    end_max: Some(10),
    ..PLAIN
};

const TWO_AND_EIGHT: Item<'static> = Item {
    demand: &[2, 8],
    ..ROOMY
};

const FROM_STOCK: Item<'static> = Item {
    demand: &[3, 3],
    opening: 7,
    ..ROOMY
};

const ON_ITS_WAY: Item<'static> = Item {
    demand: &[0, 5],
    lead: 1,
    ..ROOMY
};

const SHORT_OF_STOCK: Item<'static> = Item {
    demand: &[2, 4],
    opening: 1,
    ..ROOMY
};

const LATE: Item<'static> = Item {
    demand: &[4, 6],
    backlog_cost: Some(&[2]),
    ..ROOMY
};

// A pair of B.
const PAIR: Item<'static> = Item {
    demand: &[0, 5],
    needs: &[("B", 2)],
    ..ROOMY
};

const HALF: Item<'static> = Item { name: "B", ..ROOMY };

// A and B take one and two of C.
const USES_ONE: Item<'static> = Item {
    demand: &[3],
    needs: &[("C", 1)],
    ..ROOMY
};

const USES_TWO: Item<'static> = Item {
    name: "B",
    demand: &[2],
    needs: &[("C", 2)],
    ..ROOMY
};

const USED: Item<'static> = Item {
    name: "C",
    demand: &[1],
    opening: 3,
    ..ROOMY
};

// A grid with these numbers by item and period, and zeros elsewhere.
fn grid(
    rt: &impl Abort,
    alloc: Global,
    items: u32,
    periods: u32,
    lots: &[(u32, u32, u64)],
) -> Grid {
    let mut grid = Grid::filled(alloc, items, periods, 0).expect(rt, "memory");
    for (item, period, quantity) in lots {
        if *item >= 1 && *item <= grid.items() && *period >= 1 && *period <= grid.periods() {
            grid.set(*item, *period, *quantity);
        }
    }
    grid
}

// The pegs of the plan with these lots and the least stocks and backlogs, as records, or why there are none.
fn text(rt: &impl Abort, alloc: Global, instance: &Instance, make: Grid) -> String {
    if !make.fits(instance) {
        return String::from_str(alloc, "another shape").expect(rt, "memory");
    }
    let setup = Grid::filled(alloc, instance.items(), instance.periods(), 1).expect(rt, "memory");
    match complete(alloc, instance, make, setup).expect(rt, "memory") {
        Some(plan) => {
            let pegs = peg(alloc, instance, &plan).expect(rt, "memory");
            match String::from_utf8(write_pegs(alloc, instance, &pegs).expect(rt, "memory")) {
                Ok(text) => text,
                Err(_) => String::from_str(alloc, "no text").expect(rt, "memory"),
            }
        }
        None => String::from_str(alloc, "not feasible").expect(rt, "memory"),
    }
}

// The pegs of these items over so many periods, with these lots.
fn pegged(
    rt: &impl Abort,
    alloc: Global,
    periods: u32,
    items: &[Item],
    lots: &[(u32, u32, u64)],
) -> String {
    let instance = instance(alloc, periods, &[], items).expect(rt, "an instance");
    let make = grid(rt, alloc, instance.items(), instance.periods(), lots);
    text(rt, alloc, &instance, make)
}

// The text with these records.
fn with_header(rt: &impl Abort, alloc: Global, records: &str) -> String {
    format!(in alloc; "item,from,to,quantity\n{records}").expect(rt, "memory")
}

#[test]
fn what_is_there_first_serves_first(rt: HostRuntime) {
    let alloc = rt.alloc();
    for (item, first, second, want) in [
        (
            TWO_AND_EIGHT,
            5u64,
            5u64,
            "A,lot 1,demand 1,2\nA,lot 1,demand 2,3\nA,lot 2,demand 2,5\n",
        ),
        (
            FROM_STOCK,
            0,
            0,
            "A,opening,demand 1,3\nA,opening,demand 2,3\nA,opening,end,1\n",
        ),
        (ON_ITS_WAY, 5, 0, "A,lot 1,demand 2,5\n"),
        (
            SHORT_OF_STOCK,
            3,
            5,
            "A,opening,demand 1,1\nA,lot 1,demand 1,1\nA,lot 1,demand 2,2\nA,lot 2,demand 2,2\nA,lot 2,end,3\n",
        ),
        (LATE, 0, 10, "A,lot 2,demand 1,4\nA,lot 2,demand 2,6\n"),
    ] {
        let found = pegged(&rt, alloc, 2, &[item], &[(1, 1, first), (1, 2, second)]);
        let whole = with_header(&rt, alloc, want);
        assert_eq!(rt; found.as_str(), whole.as_str());
    }
}

#[test]
fn components_go_into_lots(rt: HostRuntime) {
    let alloc = rt.alloc();
    let found = pegged(&rt, alloc, 2, &[PAIR, HALF], &[(1, 2, 5), (2, 2, 10)]);
    let whole = with_header(&rt, alloc, "A,lot 2,demand 2,5\nB,lot 2,use A 2,10\n");
    assert_eq!(rt; found.as_str(), whole.as_str());
    let found = pegged(
        &rt,
        alloc,
        1,
        &[USES_ONE, USES_TWO, USED],
        &[(1, 1, 3), (2, 1, 2), (3, 1, 5)],
    );
    let records =
        "A,lot 1,demand 1,3\nB,lot 1,demand 1,2\nC,opening,demand 1,1\nC,opening,use A 1,2\nC,lot 1,use A 1,1\nC,lot 1,use B 1,4\n";
    let whole = with_header(&rt, alloc, records);
    assert_eq!(rt; found.as_str(), whole.as_str());
}

// An item that is asked for one in each period.
const ONES: Item<'static> = Item {
    demand: &[1],
    ..ROOMY
};

// 40 items over 120 periods with a demand of 1 each, the last of which takes one of each other.
fn largest(rt: &impl Abort, alloc: Global) -> Instance {
    let mut items = Vec::new(alloc);
    let mut needs = Vec::new(alloc);
    for number in 2..41u32 {
        let name = format!(in alloc; "i{number}").expect(rt, "memory");
        needs
            .push(DraftNeed {
                item: String::from_str(alloc, name.as_str()).expect(rt, "memory"),
                quantity: 1,
            })
            .expect(rt, "memory");
        items
            .push(item_named(alloc, 120, &ONES, name).expect(rt, "memory"))
            .expect(rt, "memory");
    }
    let mut first = item_named(
        alloc,
        120,
        &ONES,
        String::from_str(alloc, "i1").expect(rt, "memory"),
    )
    .expect(rt, "memory");
    first.needs = needs;
    items.push(first).expect(rt, "memory");
    let draft = Draft {
        periods: 120,
        resources: Vec::new(alloc),
        items,
    };
    instance_of(alloc, draft).expect(rt, "an instance")
}

// Two of each item in each period, and one of the last.
fn largest_lots(rt: &impl Abort, alloc: Global, instance: &Instance) -> Grid {
    let mut make = Grid::filled(alloc, instance.items(), instance.periods(), 2).expect(
        rt, "memory",
    );
    for period in 1..121u32 {
        if make.items() == 40 && make.periods() == 120 {
            make.set(40, period, 1);
        }
    }
    make
}

#[test]
fn the_largest_plan_has_its_pegs(rt: HostRuntime) {
    let alloc = rt.alloc();
    let instance = largest(&rt, alloc);
    let make = largest_lots(&rt, alloc, &instance);
    let found = text(&rt, alloc, &instance, make);
    assert_eq!(rt; found.lines().count(), 1 + 39 * 240 + 120);
}

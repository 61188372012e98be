//! The models and plans of two periods that several files of tests have in common.

use fixtures::{Item, PLAIN, instance};
use lot_model::Instance;
use plan_rules::{Grid, Plan};
use std::alloc::Global;
use std::process::Abort;

/// An item with demands of 4 and 6 and a dear first setup, which may not be late. A unit in stock costs 1.
pub const PROMPT: Item<'static> = Item {
    demand: &[4, 6],
    setup_cost: &[100, 20],
    hold_cost: &[1],
    ..PLAIN
};

/// The model of this item.
pub fn prompt(rt: &impl Abort, alloc: Global) -> Instance {
    instance(alloc, 2, &[], &[PROMPT]).expect(rt, "an instance")
}

/// That of such an item which may be late, at a cost of 2 for a unit.
pub fn late(rt: &impl Abort, alloc: Global) -> Instance {
    let owed = Item {
        backlog_cost: Some(&[2]),
        ..PROMPT
    };
    instance(alloc, 2, &[], &[owed]).expect(rt, "an instance")
}

// A number for each of the two periods.
fn grid(rt: &impl Abort, alloc: Global, first: u64, second: u64) -> Grid {
    let mut grid = Grid::filled(alloc, 1, 2, first).expect(rt, "memory");
    grid.set(1, 2, second);
    grid
}

/// The best plan of the shop, which makes 5 and 5 and holds 3.
pub fn best_plan(rt: &impl Abort, alloc: Global) -> Plan {
    Plan {
        make: grid(rt, alloc, 5, 5),
        setup: grid(rt, alloc, 1, 1),
        stock: grid(rt, alloc, 3, 0),
        backlog: grid(rt, alloc, 0, 0),
    }
}

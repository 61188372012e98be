use cert_lines::Part;
use fixtures::{Item, MACHINE, MADE, instance, shop};
use lin_rows::{RowName, base_row};
use lot_model::Instance;
use lp_relaxation::{
    Side, base_names, base_program, column_costs, leaf_parts, push_row, rows_are_small,
};
use std::alloc::Global;
use std::process::Abort;

// The shop, whose item has a lead time and a least lot.
fn shop_with(rt: &impl Abort, alloc: Global, lead: i64, min_lot: i64) -> Instance {
    let made = Item {
        lead,
        min_lot,
        ..MADE
    };
    instance(alloc, 2, &[MACHINE], &[made]).expect(rt, "an instance")
}

#[test]
fn names_in_their_order(rt: HostRuntime) {
    let alloc = rt.alloc();
    let instance = shop_with(&rt, alloc, 1, 3);
    let names = base_names(alloc, &instance).expect(&rt, "memory");
    let expected = &[
        RowName::Balance(1, 1),
        RowName::Balance(1, 2),
        RowName::Link(1, 1),
        RowName::Link(1, 2),
        RowName::Capacity(1, 1),
        RowName::Capacity(1, 2),
        RowName::EndMin(1),
        RowName::EndMax(1),
        RowName::Top(1, 1),
        RowName::Top(1, 2),
        RowName::Least(1, 1),
        RowName::Least(1, 2),
        RowName::Late(1, 2),
    ];
    assert!(rt; &names[..] == &expected[..]);
}

// Whether the columns of an instance cost these.
fn are_costs(rt: &impl Abort, alloc: Global, instance: &Instance, want: &[u64]) -> bool {
    let costs = column_costs(alloc, instance).expect(rt, "memory");
    &costs[..] == want
}

// The cells and the rows of the first program.
fn first_size(rt: &impl Abort, alloc: Global, instance: &Instance) -> (u64, usize) {
    let round = base_program(alloc, instance).expect(rt, "memory");
    (round.lp.cells(), round.sides.len())
}

// The cells of the first program with one row more, as a cut.
fn cells_with_cut(rt: &impl Abort, alloc: Global, instance: &Instance) -> u64 {
    let mut round = base_program(alloc, instance).expect(rt, "memory");
    rows_are_small();
    if let Ok(cut) = base_row(alloc, instance, RowName::Top(1, 1)) {
        if !cut.is_equal() {
            push_row(alloc, instance, RowName::Cut(1), &cut, &mut round).expect(rt, "memory");
        }
    }
    round.lp.cells()
}

// A cut stands after the other rows.
#[test]
fn the_first_program_has_91_cells(rt: HostRuntime) {
    let alloc = rt.alloc();
    let instance = shop(alloc).expect(&rt, "an instance");
    let costs = are_costs(&rt, alloc, &instance, &[0, 0, 10, 10, 1, 1]);
    let size = first_size(&rt, alloc, &instance);
    let more = cells_with_cut(&rt, alloc, &instance);
    assert_eq!(rt; (costs, size, more), (true, (91, 12), 98));
}

#[test]
fn parts_by_their_sides(rt: HostRuntime) {
    let alloc = rt.alloc();
    let sides = &[
        Side {
            name: RowName::Balance(1, 1),
            turned: false,
        },
        Side {
            name: RowName::Balance(1, 1),
            turned: true,
        },
        Side {
            name: RowName::Link(1, 1),
            turned: false,
        },
    ];
    let parts = leaf_parts(alloc, &sides[..], &[0i128, 3, 2][..]).expect(&rt, "memory");
    let expected = &[
        Part {
            row: RowName::Balance(1, 1),
            times: -3,
        },
        Part {
            row: RowName::Link(1, 1),
            times: 2,
        },
    ];
    assert!(rt; &parts[..] == &expected[..]);
}

use crate::programs::{
    drawn_program, is_empty_by, kind_of, optimum, passed, past_the_width, program, stopped,
    two_cars,
};
use least_index::solve_to_end;
use std::alloc::Global;
use std::process::Abort;

// The two cars of a textbook on operations research: 320 by 18/5 and 7/5.
#[test]
fn two_columns_and_two_rows(rt: HostRuntime) {
    let alloc = rt.alloc();
    let lp = two_cars(&rt, alloc);
    let found = solve_to_end(alloc, &lp).expect(&rt, "memory");
    assert_eq!(rt;
        optimum(found, &[(18, 5), (7, 5)], &[(5, 1), (15, 2)]),
        Some(((320, 1), true, true))
    );
}

// A column that is to be at least 1 and at most 0.
#[test]
fn rows_that_no_point_meets(rt: HostRuntime) {
    let alloc = rt.alloc();
    let lp = program(&rt, alloc, &[1], &[(&[(1, 2)][..], 2), (&[(1, -3)][..], 0)]);
    let found = solve_to_end(alloc, &lp).expect(&rt, "memory");
    assert!(rt; is_empty_by(found, &[(3, 2), (1, 1)]));
}

// The reduced cost of column 2 after the first pivot.
#[test]
fn a_number_that_does_not_fit(rt: HostRuntime) {
    let alloc = rt.alloc();
    let lp = past_the_width(&rt, alloc);
    let found = solve_to_end(alloc, &lp).expect(&rt, "memory");
    assert_eq!(rt; passed(found), Some((1, 0, 2)));
}

// The kind of a drawn program's outcome, by a run to its end and by one that may make pivots enough, if both say the same;
// and whether a run of seven pivots is stopped.
fn drawn_kind(rt: &impl Abort, alloc: Global, state: &mut u64, round: u32) -> (Option<u32>, bool) {
    let lp = drawn_program(rt, alloc, state, round);
    let found = solve_to_end(alloc, &lp).expect(rt, "memory");
    let kind = kind_of(&found, &lp.solve(alloc, 1000).expect(rt, "memory"));
    (
        kind,
        stopped(lp.solve(alloc, 7).expect(rt, "memory")).is_some(),
    )
}

// Random programs, each by a run to its end and by one that may make pivots enough: the outcome is one, of each kind, and
// some runs go through several rounds.
#[test]
fn each_end_is_that_of_pivots_enough(rt: HostRuntime) {
    let alloc = rt.alloc();
    let mut state = 20_261_128u64;
    let mut seen = (0u32, 0u32, 0u32, 0u32);
    for round in 0..200u32 {
        let (kind, is_stopped) = drawn_kind(&rt, alloc, &mut state, round);
        match kind {
            Some(0) => seen.0 = seen.0.wrapping_add(1),
            Some(1) => seen.1 = seen.1.wrapping_add(1),
            Some(3) => seen.2 = seen.2.wrapping_add(1),
            _ => panic!(rt; "another outcome"),
        }
        if is_stopped {
            seen.3 = seen.3.wrapping_add(1);
        }
    }
    assert!(rt; seen.0 > 20 && seen.1 > 20 && seen.2 > 5 && seen.3 > 5);
}

use crate::programs::{
    add_row, drawn_program, is_empty_by, kind_of, least_cost, optimum, passed, past_the_width,
    program, row, stopped, two_cars,
};
use frac128::Frac;
use std::alloc::Global;
use std::process::Abort;
use tableau::{Lp, Run, StepSays, WholeMultipliers, plain, whole_multipliers};

// The two cars of a textbook on operations research: 320 by 18/5 and 7/5.
#[test]
fn two_columns_and_two_rows(rt: HostRuntime) {
    let alloc = rt.alloc();
    let lp = two_cars(&rt, alloc);
    assert_eq!(rt; lp.cells(), 9);
    let found = lp.solve(alloc, 10).expect(&rt, "memory");
    assert_eq!(rt;
        optimum(found, &[(18, 5), (7, 5)], &[(5, 1), (15, 2)]),
        Some(((320, 1), true, true))
    );
}

#[test]
fn no_rows(rt: HostRuntime) {
    let alloc = rt.alloc();
    let lp = program(&rt, alloc, &[3, 0], &[]);
    assert_eq!(rt; lp.cells(), 3);
    let found = lp.solve(alloc, 0).expect(&rt, "memory");
    assert_eq!(rt;
        optimum(found, &[(0, 1), (0, 1)], &[]),
        Some(((0, 1), true, true))
    );
}

// A column that is to be at least 1 and at most 0, beside one that has no part in it.
#[test]
fn rows_that_no_point_meets(rt: HostRuntime) {
    let alloc = rt.alloc();
    let lp = program(
        &rt,
        alloc,
        &[1, 1],
        &[(&[(2, 1)][..], 0), (&[(1, 2)][..], 2), (&[(1, -3)][..], 0)],
    );
    let found = lp.solve(alloc, 10).expect(&rt, "memory");
    assert!(rt; is_empty_by(found, &[(0, 1), (3, 2), (1, 1)]));
}

// A row without terms leaves no point by itself.
#[test]
fn a_row_without_terms(rt: HostRuntime) {
    let alloc = rt.alloc();
    let lp = program(&rt, alloc, &[1], &[(&[][..], 1)]);
    let found = lp.solve(alloc, 0).expect(&rt, "memory");
    assert!(rt; is_empty_by(found, &[(1, 1)]));
}

// Equal rows, and columns of equal ratio: the least-numbered row leaves, and the least-numbered column enters.
#[test]
fn ties_go_by_number(rt: HostRuntime) {
    let alloc = rt.alloc();
    let lp = program(
        &rt,
        alloc,
        &[2, 1, 1],
        &[
            (&[(1, 2), (2, 1), (3, 1)][..], 3),
            (&[(1, 2), (2, 1), (3, 1)][..], 3),
            (&[(3, -1)][..], -1),
        ],
    );
    let found = lp.solve(alloc, 1).expect(&rt, "memory");
    assert_eq!(rt;
        optimum(found, &[(3, 2), (0, 1), (0, 1)], &[(1, 1), (0, 1), (0, 1)]),
        Some(((3, 1), true, true))
    );
}

// The rows of a lot-sizing model of two periods, equal ones twice: columns are quantities, setups and stocks.
fn two_periods(rt: &impl Abort, alloc: Global) -> Lp {
    program(
        rt,
        alloc,
        &[0, 0, 10, 10, 1, 1],
        &[
            (&[(1, 1), (5, -1)][..], 2),
            (&[(1, -1), (5, 1)][..], -2),
            (&[(2, 1), (5, 1), (6, -1)][..], 8),
            (&[(2, -1), (5, -1), (6, 1)][..], -8),
            (&[(1, -1), (3, 10)][..], 0),
            (&[(2, -1), (4, 10)][..], 0),
            (&[(1, -1), (3, -1)][..], -6),
            (&[(2, -1), (4, -1)][..], -6),
            (&[(6, 1)][..], 0),
            (&[(6, -1)][..], 0),
            (&[(3, -1)][..], -1),
            (&[(4, -1)][..], -1),
        ],
    )
}

#[test]
fn a_model_of_two_periods(rt: HostRuntime) {
    let alloc = rt.alloc();
    let lp = two_periods(&rt, alloc);
    assert_eq!(rt; lp.cells(), 91);
    assert_eq!(rt;
        least_cost(lp.solve(alloc, 100).expect(&rt, "memory")),
        Some((138, 11))
    );
    for pivots in 0..2u32 {
        assert_eq!(rt;
            stopped(lp.solve(alloc, pivots).expect(&rt, "memory")),
            Some(pivots)
        );
    }
}

// A run is stopped exactly where it has more pivots.
#[test]
fn runs_that_are_stopped(rt: HostRuntime) {
    let alloc = rt.alloc();
    let lp = program(
        &rt,
        alloc,
        &[1, 1],
        &[(&[(1, 1)][..], 1), (&[(2, 1)][..], 1)],
    );
    for pivots in 0..4u32 {
        let found = lp.solve(alloc, pivots).expect(&rt, "memory");
        assert_eq!(rt; stopped(found).is_some(), pivots < 2);
    }
}

// Numbers that don't fit: the reduced cost of column 2 after the first pivot, and a ratio.
#[test]
fn numbers_that_do_not_fit(rt: HostRuntime) {
    let alloc = rt.alloc();
    let lp = past_the_width(&rt, alloc);
    let found = lp.solve(alloc, 9).expect(&rt, "memory");
    assert_eq!(rt; passed(found), Some((1, 0, 2)));
}

// The row and the column of a number that doesn't fit.
fn passed_cell(says: StepSays) -> Option<(u32, u32)> {
    match says {
        StepSays::Passed { row, column } => Some((row, column)),
        _ => None,
    }
}

// After a number that doesn't fit each step says the same.
#[test]
fn steps_after_a_refusal(rt: HostRuntime) {
    let alloc = rt.alloc();
    let lp = past_the_width(&rt, alloc);
    let mut run = Run::start(alloc, &lp).expect(&rt, "memory");
    for _ in 0..3 {
        assert_eq!(rt; passed_cell(run.step()), Some((0, 2)));
    }
}

// Whether a program takes a row of these terms.
fn takes(rt: &impl Abort, alloc: Global, lp: &Lp, terms: &[(u32, i128)]) -> bool {
    let more = row(rt, alloc, terms, 0);
    lp.takes(&more)
}

// The first row of the two cars.
fn one_car(rt: &impl Abort, alloc: Global) -> Lp {
    program(rt, alloc, &[50, 100], &[(&[(1, 7), (2, 2)][..], 28)])
}

#[test]
fn rows_out_of_form_are_not_taken(rt: HostRuntime) {
    let alloc = rt.alloc();
    let lp = one_car(&rt, alloc);
    assert!(rt; !takes(&rt, alloc, &lp, &[(3, 1)]));
    assert!(rt; !takes(&rt, alloc, &lp, &[(2, 1), (1, 1)]));
}

#[test]
fn a_row_is_added(rt: HostRuntime) {
    let alloc = rt.alloc();
    let more = row(&rt, alloc, &[(1, 2), (2, 12)], 24);
    let mut lp = one_car(&rt, alloc);
    add_row(&rt, &mut lp, more);
    assert_eq!(rt; lp.cells(), 9);
    let found = lp.solve(alloc, 10).expect(&rt, "memory");
    assert_eq!(rt;
        optimum(found, &[(18, 5), (7, 5)], &[(5, 1), (15, 2)]),
        Some(((320, 1), true, true))
    );
}

// The least common denominator of these fractions and their numerators over it.
fn over_one(rt: &impl Abort, alloc: Global, parts: &[(i128, i128)]) -> Option<WholeMultipliers> {
    let mut fractions = Vec::new(alloc);
    for part in parts {
        if let Some(fraction) = Frac::new(part.0, part.1) {
            fractions.push(fraction).expect(rt, "memory");
        }
    }
    whole_multipliers(alloc, &fractions).expect(rt, "memory")
}

// The least common denominator of these fractions, and whether their numerators over it are these.
fn common(
    rt: &impl Abort,
    alloc: Global,
    parts: &[(i128, i128)],
    numerators: &[i128],
) -> Option<(i128, bool)> {
    match over_one(rt, alloc, parts) {
        Some(whole) => Some((whole.den, whole.numerators.as_slice() == numerators)),
        None => None,
    }
}

// The denominators 6, 4 and 1 have the least common multiple 12, and none at all has 1.
#[test]
fn fractions_over_one_denominator(rt: HostRuntime) {
    let alloc = rt.alloc();
    assert_eq!(rt;
        common(&rt, alloc, &[(1, 6), (-3, 4), (2, 1)], &[2, -9, 24]),
        Some((12, true))
    );
    assert_eq!(rt; common(&rt, alloc, &[], &[]), Some((1, true)));
}

// Whether these fractions have a common denominator that fits.
fn have_common(rt: &impl Abort, alloc: Global, parts: &[(i128, i128)]) -> bool {
    over_one(rt, alloc, parts).is_some()
}

// 2^64 times 3^41 passes 2^127, and so does 3 times 2^126. 2^63 times 2^63 would be a product of denominators, but 2^63
// is their least common multiple.
#[test]
fn denominators_and_numerators_that_pass(rt: HostRuntime) {
    let alloc = rt.alloc();
    let den = [(1, 18446744073709551616), (1, 36472996377170786403)];
    assert!(rt; !have_common(&rt, alloc, &den));
    let numerator = [(85070591730234615865843651857942052864, 1), (1, 3)];
    assert!(rt; !have_common(&rt, alloc, &numerator));
    let same = [(1, 9223372036854775808), (3, 9223372036854775808)];
    assert!(rt; have_common(&rt, alloc, &same));
}

// The kind of a drawn program's outcome after so many pivots, if the plain run says the same.
fn drawn_kind(rt: &impl Abort, alloc: Global, state: &mut u64, round: u32) -> Option<u32> {
    let lp = drawn_program(rt, alloc, state, round);
    let most = round % 23;
    let found = lp.solve(alloc, most).expect(rt, "memory");
    kind_of(&found, &plain::solve(&lp, alloc, most).expect(rt, "memory"))
}

// Random programs, each by the run and by the plain one; all four outcomes come.
#[test]
fn each_run_is_its_plain_form(rt: HostRuntime) {
    let alloc = rt.alloc();
    let mut state = 20_261_127u64;
    let mut seen = (0u32, 0u32, 0u32, 0u32);
    for round in 0..1000u32 {
        match drawn_kind(&rt, alloc, &mut state, round) {
            Some(0) => seen.0 = seen.0.wrapping_add(1),
            Some(1) => seen.1 = seen.1.wrapping_add(1),
            Some(2) => seen.2 = seen.2.wrapping_add(1),
            Some(_) => seen.3 = seen.3.wrapping_add(1),
            None => panic!(rt; "another outcome"),
        }
    }
    assert!(rt; seen.0 > 50 && seen.1 > 50 && seen.2 > 50 && seen.3 > 20);
}

//! Linear programs, what runs say of them, and programs that are drawn: what the files on runs have in common.

use frac128::Frac;
use std::alloc::Global;
use std::process::Abort;
use tableau::{Lp, LpRow, LpTerm, Outcome, is_program};

/// A row of these multiples of columns.
pub fn row(rt: &impl Abort, alloc: Global, terms: &[(u32, i128)], right: i128) -> LpRow {
    let mut list = Vec::new(alloc);
    for term in terms {
        list.push(LpTerm {
            column: term.0,
            times: term.1,
        })
        .expect(rt, "memory");
    }
    LpRow { terms: list, right }
}

// Several rows, each by its terms and its right side.
fn rows(rt: &impl Abort, alloc: Global, rows: &[(&[(u32, i128)], i128)]) -> Vec<LpRow> {
    let mut list = Vec::new(alloc);
    for (terms, right) in rows {
        list.push(row(rt, alloc, *terms, *right))
            .expect(rt, "memory");
    }
    list
}

// The program of these costs and rows.
fn made(rt: &impl Abort, costs: Vec<u64>, rows: Vec<LpRow>) -> Lp {
    if !is_program(&costs, &rows) {
        panic!(rt; "no program");
    }
    Lp::new(costs, rows)
}

/// The program of these costs and rows.
pub fn program(
    rt: &impl Abort,
    alloc: Global,
    costs: &[u64],
    terms: &[(&[(u32, i128)], i128)],
) -> Lp {
    let rows = rows(rt, alloc, terms);
    made(rt, costs.to_vec(alloc).expect(rt, "memory"), rows)
}

/// The textbook's program of two cars.
pub fn two_cars(rt: &impl Abort, alloc: Global) -> Lp {
    program(
        rt,
        alloc,
        &[50, 100],
        &[(&[(1, 7), (2, 2)][..], 28), (&[(1, 2), (2, 12)][..], 24)],
    )
}

/// A program of which the reduced cost of column 2 after the first pivot is 2^64 - 1 - 3^70 / 2^100.
pub fn past_the_width(rt: &impl Abort, alloc: Global) -> Lp {
    program(
        rt,
        alloc,
        &[1, 18446744073709551615],
        &[
            (
                &[
                    (1, 1267650600228229401496703205376),
                    (2, 2503155504993241601315571986085849),
                ][..],
                1,
            ),
            (&[(1, 1), (2, 1)][..], 1),
        ],
    )
}

// Whether these are the numbers of a list, each by its numerator and its denominator.
fn are(list: &[Frac], numbers: &[(i128, i128)]) -> bool {
    if list.len() != numbers.len() {
        return false;
    }
    for (found, wanted) in list.iter().zip(numbers) {
        if found.num() != wanted.0 || found.den() != wanted.1 {
            return false;
        }
    }
    true
}

/// What a run's optimum costs, and whether its point and its multipliers are these; None where it has none.
pub fn optimum(
    found: Outcome,
    at: &[(i128, i128)],
    by: &[(i128, i128)],
) -> Option<((i128, i128), bool, bool)> {
    match found {
        Outcome::Least {
            point,
            multipliers,
            value,
        } => Some((
            (value.num(), value.den()),
            are(&point, at),
            are(&multipliers, by),
        )),
        _ => None,
    }
}

/// What a run's optimum costs.
pub fn least_cost(found: Outcome) -> Option<(i128, i128)> {
    match found {
        Outcome::Least { value, .. } => Some((value.num(), value.den())),
        _ => None,
    }
}

/// Whether a run finds no point, by these multipliers.
pub fn is_empty_by(found: Outcome, by: &[(i128, i128)]) -> bool {
    match found {
        Outcome::Empty { multipliers } => are(&multipliers, by),
        _ => false,
    }
}

/// The pivots of a run that is stopped.
pub fn stopped(found: Outcome) -> Option<u32> {
    match found {
        Outcome::Stopped { pivots } => Some(pivots),
        _ => None,
    }
}

/// The pivot, the row and the column of a number that doesn't fit.
pub fn passed(found: Outcome) -> Option<(u32, u32, u32)> {
    match found {
        Outcome::Passed { pivot, row, column } => Some((pivot, row, column)),
        _ => None,
    }
}

// The next of a row of numbers below 2^16.
fn draw(state: &mut u64) -> u64 {
    *state = state
        .wrapping_mul(6_364_136_223_846_793_005)
        .wrapping_add(1_442_695_040_888_963_407);
    *state >> 48
}

// A row over so many columns, some of them left out; numbers are multiples of one, or nearly.
fn drawn_row(rt: &impl Abort, alloc: Global, state: &mut u64, columns: u32, unit: i128) -> LpRow {
    let mut terms = Vec::new(alloc);
    for column in 0..columns {
        let times = (draw(state) % 7) as i128 - 3;
        if times != 0 && draw(state) % 3 != 0 {
            terms
                .push(LpTerm {
                    column: column.wrapping_add(1),
                    times: times
                        .wrapping_mul(unit)
                        .wrapping_add((draw(state) % 2) as i128),
                })
                .expect(rt, "memory");
        }
    }
    let right = ((draw(state) % 12) as i128 - 4).wrapping_mul(unit);
    LpRow { terms, right }
}

// So many costs.
fn drawn_costs(rt: &impl Abort, alloc: Global, state: &mut u64, size: u32) -> Vec<u64> {
    let mut costs = Vec::new(alloc);
    for _ in 0..size {
        costs.push(draw(state)).expect(rt, "memory");
    }
    costs
}

/// Adds a row to a program that takes it.
pub fn add_row(rt: &impl Abort, lp: &mut Lp, more: LpRow) {
    if !lp.takes(&more) {
        panic!(rt; "no row");
    }
    lp.push(more).expect(rt, "memory");
}

/// A program of as many rows as columns for a round of a test; in each fourth round its numbers are large.
pub fn drawn_program(rt: &impl Abort, alloc: Global, state: &mut u64, round: u32) -> Lp {
    let unit = if round % 4 == 0 { 1_000_000_000_000 } else { 1 };
    let size = (round % 9).wrapping_add(1);
    let costs = drawn_costs(rt, alloc, state, size);
    let mut lp = made(rt, costs, Vec::new(alloc));
    for _ in 0..size {
        add_row(rt, &mut lp, drawn_row(rt, alloc, state, size, unit));
    }
    lp
}

fn same_numbers(one: &[Frac], other: &[Frac]) -> bool {
    if one.len() != other.len() {
        return false;
    }
    for (a, b) in one.iter().zip(other) {
        if a != b {
            return false;
        }
    }
    true
}

/// The kind of an outcome, if another is the same: 0 optimal, 1 infeasible, 2 stopped, 3 a number that doesn't fit.
pub fn kind_of(one: &Outcome, other: &Outcome) -> Option<u32> {
    match (one, other) {
        (
            Outcome::Least {
                point,
                multipliers,
                value,
            },
            Outcome::Least {
                point: at,
                multipliers: by,
                value: cost,
            },
        ) => (same_numbers(point, at) && same_numbers(multipliers, by) && value == cost).then_some(
            0,
        ),
        (Outcome::Empty { multipliers }, Outcome::Empty { multipliers: by }) => {
            same_numbers(multipliers, by).then_some(1)
        }
        (Outcome::Stopped { pivots }, Outcome::Stopped { pivots: made }) => (pivots
            == made).then_some(2),
        (
            Outcome::Passed { pivot, row, column },
            Outcome::Passed {
                pivot: made,
                row: in_row,
                column: in_column,
            },
        ) => (pivot == made && row == in_row && column == in_column).then_some(3),
        _ => None,
    }
}

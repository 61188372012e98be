// Plans by hand, and against all plans of small items.
use crate::{NONE, QuantityPlans, Terms};
use std::test::Fail;

// What quantities cost of three periods, and `NONE` where they are none of a plan.
fn cost_of(terms: Terms<'_>, made: &[i64]) -> i64 {
    let mut cost = 0i64;
    let mut sum = 0i64;
    let mut period = 0usize;
    for units in made {
        let term = terms.of(period);
        if *units > term.largest {
            return NONE;
        }
        sum = sum.saturating_add(*units);
        if sum < term.need {
            return NONE;
        }
        if *units > 0 {
            cost = cost.saturating_add(term.fee);
        }
        let short = term.asked.saturating_sub(sum).max(0);
        cost = cost
            .saturating_add(term.unit.saturating_mul(*units))
            .saturating_add(term.share.saturating_mul(short));
        period = period.saturating_add(1);
    }
    cost
}

// The least cost of all quantities of three periods, each at most 6.
fn least_of(terms: Terms<'_>) -> i64 {
    let mut least = NONE;
    for number in 0..343i64 {
        let made = [number % 7, number / 7 % 7, number / 49];
        least = least.min(cost_of(terms, &made));
    }
    least
}

// The next number of a row of numbers, below a most.
fn next(state: &mut u64, most: u64) -> i64 {
    *state = state
        .wrapping_mul(6_364_136_223_846_793_005)
        .wrapping_add(1_442_695_040_888_963_407);
    let number = (*state >> 33).checked_rem(most).unwrap_or(0);
    i64::try_from(number).unwrap_or(0)
}

// Three numbers, each below a most.
fn three(state: &mut u64, most: u64) -> [i64; 3] {
    [next(state, most), next(state, most), next(state, most)]
}

// Three numbers that rise, the last at most 6.
fn rising(state: &mut u64) -> [i64; 3] {
    let (first, more, last) = (next(state, 3), next(state, 3), next(state, 3));
    let second = first.saturating_add(more);
    [first, second, second.saturating_add(last)]
}

// The less of two numbers at each of three places.
fn less_of(one: [i64; 3], other: [i64; 3]) -> [i64; 3] {
    [
        one[0].min(other[0]),
        one[1].min(other[1]),
        one[2].min(other[2]),
    ]
}

#[test]
fn plans_by_hand(rt: HostRuntime) -> Result<(), Fail> {
    let mut plans = QuantityPlans::new(rt.alloc());
    // Lots of 4 at most: two of 4 and 3 cost 10 + 10 + 7, and no less.
    let terms = Terms {
        fee: &[10, 10, 10],
        unit: &[1, 1, 5],
        need: &[2, 4, 7],
        asked: &[0, 0, 0],
        share: &[0, 0, 0],
        largest: &[4, 4, 4],
    };
    assert_eq!(rt; plans.plan(terms)?, 27);
    assert_eq!(rt; plans.setups(), [1, 1, 0].as_slice());
    assert_eq!(rt; plans.short(), [0, 0, 0].as_slice());
    // Two units may fall short at 3 each by the end of the first period, which is cheaper than another lot.
    let late = Terms {
        need: &[0, 4, 4],
        asked: &[2, 4, 4],
        share: &[3, 3, 3],
        ..terms
    };
    assert_eq!(rt;
        plans.plan(Terms {
            fee: &[30, 10, 10],
            ..late
        })?,
        20
    );
    assert_eq!(rt; plans.made(), [0, 4, 0].as_slice());
    assert_eq!(rt; plans.short(), [2, 0, 0].as_slice());
    // A setup that a path closes is made where there is no plan without, and only there.
    let closed = Terms {
        fee: &[10, 100_000_000_000, 10],
        ..terms
    };
    assert_eq!(rt; plans.plan(closed)?, 10 + 4 + 10 + 15);
    assert_eq!(rt; plans.made(), [4, 0, 3].as_slice());
    assert_eq!(rt;
        plans.plan(Terms {
            need: &[2, 5, 7],
            ..closed
        })?,
        100_000_000_017
    );
    // Lots are too small.
    assert_eq!(rt;
        plans.plan(Terms {
            largest: &[2, 1, 3],
            ..terms
        })?,
        NONE
    );
    assert!(rt; plans.made().is_empty());
    Ok(())
}

#[test]
fn plans_are_cheapest(rt: HostRuntime) -> Result<(), Fail> {
    let mut plans = QuantityPlans::new(rt.alloc());
    let mut state = 7u64;
    for _ in 0..150u32 {
        let asked = rising(&mut state);
        let need = less_of(rising(&mut state), asked);
        let (fee, unit) = (three(&mut state, 12), three(&mut state, 5));
        let (share, largest) = (three(&mut state, 4), three(&mut state, 7));
        let terms = Terms {
            fee: &fee,
            unit: &unit,
            need: &need,
            asked: &asked,
            share: &share,
            largest: &largest,
        };
        let cost = plans.plan(terms)?;
        assert_eq!(rt; cost, least_of(terms));
        if cost < NONE {
            assert_eq!(rt; cost, cost_of(terms, plans.made()));
        }
    }
    Ok(())
}

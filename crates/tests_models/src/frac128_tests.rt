use frac128::{Frac, Ratio, plain};
use std::cmp::Ordering;
use std::process::Abort;

// 2^127 - 1
const MOST: i128 = 170_141_183_460_469_231_731_687_303_715_884_105_727;
// 2^126
const QUARTER: i128 = 85_070_591_730_234_615_865_843_651_857_942_052_864;
// 2^100
const HUNDRED: i128 = 1_267_650_600_228_229_401_496_703_205_376;
// 2^64 and 2^63
const WORD: i128 = 18_446_744_073_709_551_616;

const SIGN: i128 = 9_223_372_036_854_775_808;
// A third of 2^127 + 1.
const THIRD: i128 = 56_713_727_820_156_410_577_229_101_238_628_035_243;

fn frac(rt: &impl Abort, num: i128, den: i128) -> Frac {
    Frac::new(num, den).expect(rt, "no fraction")
}

fn parts(number: Option<Frac>) -> Option<(i128, i128)> {
    number.map(|n| (n.num(), n.den()))
}

#[test]
fn numbers_are_made_in_lowest_terms(rt: HostRuntime) {
    for (num, den, want) in [
        (6, -4, Some((-3, 2))),
        (-6, -4, Some((3, 2))),
        (0, -7, Some((0, 1))),
        (1, 0, None),
        (0, 0, None),
        (MOST, 1, Some((MOST, 1))),
        (-MOST, 1, Some((-MOST, 1))),
        (1, -MOST, Some((-1, MOST))),
        (MOST, -MOST, Some((-1, 1))),
        (i128::MIN, 1, None),
        (1, i128::MIN, None),
        (i128::MIN, i128::MIN, Some((1, 1))),
        (i128::MIN, 2, Some((-QUARTER, 1))),
        (2, i128::MIN, Some((-1, QUARTER))),
        (3 * HUNDRED, 9 * HUNDRED, Some((1, 3))),
        (MOST - 1, MOST, Some((MOST - 1, MOST))),
    ] {
        assert_eq!(rt; parts(Frac::new(num, den)), want);
    }
}

#[test]
fn sums_and_differences(rt: HostRuntime) {
    for (a, b, c, d, want) in [
        (1, 6, 1, 10, Some((4, 15))),
        (1, 2, -1, 3, Some((1, 6))),
        (7, 3, -7, 3, Some((0, 1))),
        (MOST, 2, -MOST, 2, Some((0, 1))),
        (1, MOST, -1, MOST, Some((0, 1))),
        (MOST - 1, 1, 1, 1, Some((MOST, 1))),
        (1 - MOST, 1, -1, 1, Some((-MOST, 1))),
        // One past the limit: the sum, the first numerator, the second, and the denominator.
        (MOST, 1, 1, 1, None),
        (-MOST, 1, -1, 1, None),
        (MOST, 3, 1, 3, None),
        (QUARTER, 1, -1, 2, None),
        (-1, 2, QUARTER, 1, None),
        (-QUARTER, 1, 1, 2, None),
        (1, 3, -1, THIRD, None),
        // The sum would fit, one step to it doesn't.
        (MOST, 3, -1, 2, None),
        // At the limit.
        (QUARTER - 1, 1, 1, 2, Some((MOST, 2))),
        (1, 2, 1, QUARTER - 1, Some((QUARTER + 1, MOST - 1))),
        // The product of the denominators doesn't fit.
        (
            1,
            3 * HUNDRED,
            1,
            5 * HUNDRED,
            Some((1, 15 * (HUNDRED / 8))),
        ),
        (1, MOST, 1, MOST, Some((2, MOST))),
        (MOST - 2, MOST - 1, 1, MOST - 1, Some((1, 1))),
    ] {
        assert_eq!(rt; parts(frac(&rt, a, b).add(frac(&rt, c, d))), want);
        assert_eq!(rt;
            parts(frac(&rt, a, b).sub(frac(&rt, c.wrapping_neg(), d))),
            want
        );
    }
    assert_eq!(rt; parts(frac(&rt, 1, 6).sub(frac(&rt, 1, 10))), Some((1, 15)));
    assert_eq!(rt;
        parts(frac(&rt, 1, 10).sub(frac(&rt, 1, 6))),
        Some((-1, 15))
    );
}

#[test]
fn products(rt: HostRuntime) {
    for (a, b, c, d, want) in [
        (5, 12, 9, 10, Some((3, 8))),
        (-5, 12, 9, 10, Some((-3, 8))),
        (-5, 12, -9, 10, Some((3, 8))),
        (0, 1, MOST, 7, Some((0, 1))),
        (MOST, 1, 1, MOST, Some((1, 1))),
        (MOST, 2, 2, -MOST, Some((-1, 1))),
        (MOST, 1, -1, 1, Some((-MOST, 1))),
        (3 * HUNDRED, 7, 49, 9 * HUNDRED, Some((7, 3))),
        (WORD - 1, SIGN, WORD, WORD - 1, Some((2, 1))),
        (SIGN, 1, SIGN, 1, Some((QUARTER, 1))),
        (WORD, 1, SIGN, 1, None),
        (-WORD, 1, SIGN, 1, None),
        (1, WORD, 1, SIGN, None),
        (1, 3, 1, THIRD, None),
        (1, SIGN, -1, SIGN, Some((-1, QUARTER))),
    ] {
        assert_eq!(rt; parts(frac(&rt, a, b).mul(frac(&rt, c, d))), want);
        assert_eq!(rt; parts(frac(&rt, c, d).mul(frac(&rt, a, b))), want);
    }
}

#[test]
fn quotients(rt: HostRuntime) {
    for (a, b, c, d, want) in [
        (-1, 2, 3, 4, Some((-2, 3))),
        (1, 2, -3, 4, Some((-2, 3))),
        (-1, 2, -3, 4, Some((2, 3))),
        (0, 1, -5, 1, Some((0, 1))),
        (1, 1, 0, 1, None),
        (0, 1, 0, 1, None),
        (3, 1, -MOST, 1, Some((-3, MOST))),
        (-MOST, 1, -MOST, 1, Some((1, 1))),
        (MOST, 1, 1, 2, None),
        (WORD, 1, 1, SIGN, None),
        (1, WORD, SIGN, 1, None),
        (MOST, 1, 3, 1, Some((MOST, 3))),
    ] {
        assert_eq!(rt; parts(frac(&rt, a, b).div(frac(&rt, c, d))), want);
    }
}

// How one number compares to another, the other to the one, and their opposites.
fn orders(x: Frac, y: Frac) -> (Ordering, Ordering, Ordering) {
    (x.compare(y), y.compare(x), (-x).compare(-y))
}

#[test]
fn comparisons(rt: HostRuntime) {
    for (a, b, c, d, want) in [
        (1, 2, 1, 2, Ordering::Equal),
        (1, 2, 2, 3, Ordering::Less),
        (-1, 2, -2, 3, Ordering::Greater),
        (-1, 2, 1, 3, Ordering::Less),
        (0, 1, -1, MOST, Ordering::Greater),
        (0, 1, 1, MOST, Ordering::Less),
        (MOST, 1, 1, MOST, Ordering::Greater),
        (-MOST, 1, -1, MOST, Ordering::Less),
        // Cross products that differ by one: below 127 bits, above 128 bits, and of 254 bits.
        (SIGN, SIGN - 1, SIGN + 1, SIGN, Ordering::Greater),
        (QUARTER, 1, MOST, 2, Ordering::Greater),
        (WORD, WORD - 1, WORD + 1, WORD, Ordering::Greater),
        (MOST, MOST - 1, MOST - 1, MOST - 2, Ordering::Less),
        (MOST - 2, MOST - 1, MOST - 1, MOST, Ordering::Less),
        (1 - MOST, MOST, 1 - MOST, MOST, Ordering::Equal),
    ] {
        let (x, y) = (frac(&rt, a, b), frac(&rt, c, d));
        let back = want.reverse();
        assert_eq!(rt; orders(x, y), (want, back, back));
        assert_eq!(rt; (x.cmp(&y), x.partial_cmp(&y)), (want, Some(want)));
        assert_eq!(rt; x == y, want == Ordering::Equal);
    }
}

#[test]
fn ceilings(rt: HostRuntime) {
    for (num, den, want) in [
        (7, 2, 4),
        (-7, 2, -3),
        (6, 3, 2),
        (-6, 3, -2),
        (1, 2, 1),
        (-1, 2, 0),
        (0, 1, 0),
        (1, MOST, 1),
        (-1, MOST, 0),
        (MOST, 1, MOST),
        (-MOST, 1, -MOST),
        (MOST, 2, QUARTER),
        (-MOST, 2, 1 - QUARTER),
        (MOST - 1, MOST, 1),
        (1 - MOST, MOST, 0),
    ] {
        assert_eq!(rt; frac(&rt, num, den).ceil(), want);
    }
}

#[test]
fn numbers_are_written(rt: HostRuntime) {
    let alloc = rt.alloc();
    for (num, den, want) in [
        (7, -14, "-1/2"),
        (0, 3, "0"),
        (-6, 2, "-3"),
        (
            MOST - 1,
            MOST,
            "170141183460469231731687303715884105726/170141183460469231731687303715884105727",
        ),
    ] {
        assert!(rt;
            frac(&rt, num, den)
                .to_string(alloc)
                .expect(&rt, "memory")
                .as_str()
                == want
        );
    }
}

// The next of a row of numbers of 64 bits.
fn draw(state: &mut u64) -> u64 {
    *state = state
        .wrapping_mul(6_364_136_223_846_793_005)
        .wrapping_add(1_442_695_040_888_963_407);
    *state ^ (*state >> 33)
}

// A number of at most so many bits twice over, above 0.
fn drawn(state: &mut u64, most: u32) -> i128 {
    let less = 64u32.wrapping_sub(most);
    let (high, low) = (
        draw(state).wrapping_shr(less),
        draw(state).wrapping_shr(less),
    );
    (high as i128).wrapping_mul(low as i128).wrapping_add(1)
}

fn drawn_frac(rt: &impl Abort, state: &mut u64, top: u32, bottom: u32) -> Frac {
    let (num, den) = (drawn(state, top), drawn(state, bottom));
    frac(rt, if num % 2 == 0 { num } else { -num }, den)
}

// Whether a sum, a difference, a product and a quotient are their plain forms.
fn are_plain(x: Frac, y: Frac) -> (bool, bool, bool, bool) {
    (
        parts(x.add(y)) == parts(plain::add(x, y)),
        parts(x.sub(y)) == parts(plain::sub(x, y)),
        parts(x.mul(y)) == parts(plain::mul(x, y)),
        parts(x.div(y)) == parts(plain::div(x, y)),
    )
}

#[test]
fn each_operation_is_its_plain_form(rt: HostRuntime) {
    let mut state = 20_261_127u64;
    for round in 0..20_000u32 {
        let x = drawn_frac(&rt, &mut state, round % 61 + 1, round % 31 + 1);
        let y = drawn_frac(&rt, &mut state, round % 7 + 1, round % 59 + 1);
        assert_eq!(rt; are_plain(x, y), (true, true, true, true));
        assert!(rt; x.ratio(y).is_some() == x.div(y).is_some());
    }
}

#[test]
fn whole_numbers_signs_and_opposites(rt: HostRuntime) {
    for (number, negative, positive) in [
        (0, false, false),
        (7, false, true),
        (-7, true, false),
        (MOST, false, true),
        (-MOST, true, false),
    ] {
        let x = Frac::whole(number).expect(&rt, "no fraction");
        assert_eq!(rt; parts(Some(x)), Some((number, 1)));
        assert_eq!(rt; parts(Some(-x)), Some((-number, 1)));
        assert_eq!(rt;
            (x.is_negative(), x.is_positive(), x.is_zero()),
            (negative, positive, number == 0)
        );
    }
}

#[test]
fn whole_numbers_of_other_widths(rt: HostRuntime) {
    assert!(rt; Frac::whole(i128::MIN).is_none());
    assert_eq!(rt; parts(Some(Frac::from(i64::MIN))), Some((-SIGN, 1)));
    assert_eq!(rt; parts(Some(Frac::from(u64::MAX))), Some((WORD - 1, 1)));
    assert_eq!(rt; parts(Some(-frac(&rt, 3, 7))), Some((-3, 7)));
}

// One whole number by another.
fn quotient(rt: &impl Abort, num: i128, den: i128) -> Ratio {
    frac(rt, num, 1)
        .ratio(frac(rt, den, 1))
        .expect(rt, "no quotient")
}

// How two of them compare, each to the other.
fn quotient_orders(x: Ratio, y: Ratio) -> (Ordering, Ordering) {
    (x.compare(&y), y.compare(&x))
}

#[test]
fn quotients_are_compared(rt: HostRuntime) {
    for (a, b, c, d, want) in [
        (6, 4, 9, 6, Ordering::Equal),
        (1, 3, 1, 2, Ordering::Less),
        (-1, 3, -1, 2, Ordering::Greater),
        // Their products don't fit, in lowest terms they do.
        (MOST, 3, MOST, 2, Ordering::Less),
        (MOST, MOST, 1, 1, Ordering::Equal),
    ] {
        let found = quotient_orders(quotient(&rt, a, b), quotient(&rt, c, d));
        assert_eq!(rt; found, (want, want.reverse()));
    }
}

// A number by itself, in wide parts.
#[test]
fn a_quotient_of_one_is_one(rt: HostRuntime) {
    let wide = frac(&rt, MOST, THIRD);
    let same = wide.ratio(wide).expect(&rt, "no quotient");
    assert_eq!(rt; same.compare(&quotient(&rt, 1, 1)), Ordering::Equal);
}

#[test]
fn quotients_that_there_are_not(rt: HostRuntime) {
    assert!(rt; frac(&rt, 1, 2).ratio(frac(&rt, 0, 1)).is_none());
    assert!(rt; frac(&rt, MOST, 1).ratio(frac(&rt, 1, 2)).is_none());
}

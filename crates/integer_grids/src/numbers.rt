//! Whole numbers with a sign. What doesn't fit stays at the largest or the least one: such a number is past all limits of
//! cuts and leaves, or makes a leaf that isn't taken.
ghost use Rattle.std.specs.Prelude.{◌↔◌, ◌≤ℤ◌, IsTrue, pos};
ghost use Rattle.std.specs.List.{All};

use std::alloc::AllocError;

/// One in averages: they are counted in parts of it.
pub const UNIT: i64 = 4096;

/// The same number in 128 bits.
pub const ONE: i128 = UNIT as i128;

// A rate is counted in parts of 2 to this power, where that fits, or else to the next one.
const FINE_POWER: u32 = 60;

const MIDDLE_POWER: u32 = 30;

/// The sum.
pub fn plus(a: i64, b: i64) -> i64 {
    a.saturating_add(b)
}

/// The difference.
pub fn less(a: i64, b: i64) -> i64 {
    a.saturating_sub(b)
}

/// The product.
pub fn times(a: i64, b: i64) -> i64 {
    a.saturating_mul(b)
}

/// The product, which always fits.
pub fn wide(a: i64, b: i64) -> i128 {
    i128::from(a).wrapping_mul(i128::from(b))
}

/// The same number in 64 bits, or the nearest one.
pub fn narrow(number: i128) -> i64 {
    match i64::try_from(number) {
        Ok(small) => small,
        Err(_) if number < 0 => i64::MIN,
        Err(_) => i64::MAX,
    }
}

/// The quotient, and 0 by 0.
pub fn over(a: i64, b: i64) -> i64 {
    if b == 0 { 0 } else { a.wrapping_div(b) }
}

// `a * b / c`, and 0 by 0.
pub fn share(a: i64, b: i64, c: i64) -> i64 {
    if c == 0 {
        0
    } else {
        narrow(wide(a, b).wrapping_div(i128::from(c)))
    }
}

/// The same number with a sign.
pub fn of_amount(number: u64) -> i64
    ensures { pos 0 ≤ℤ result }
{
    match i64::try_from(number) {
        Ok(small) => small,
        Err(_) => i64::MAX,
    }
}

pub fn of_total(number: u128) -> i64 {
    match i64::try_from(number) {
        Ok(small) => small,
        Err(_) => i64::MAX,
    }
}

/// A part of a whole, by which many numbers are multiplied: so many parts of a power of 2.
#[derive(Clone, Copy, Debug)]
pub struct Rate {
    factor: i64,
    power: u32,
}

impl Rate {
    // `part / whole` in parts of a power of 2, where it fits; 0 where the whole isn't above 0.
    fn try_new(part: i128, whole: i128, power: u32) -> Option<Rate> {
        if whole <= 0 {
            return Some(Rate { factor: 0, power });
        }
        let parts = part.checked_mul(1i128.wrapping_shl(power))?;
        match i64::try_from(parts.wrapping_div(whole)) {
            Ok(factor) => Some(Rate { factor, power }),
            Err(_) => None,
        }
    }

    /// `part / whole`, as finely as it fits; 0 where the whole isn't above 0.
    pub fn new(part: i128, whole: i128) -> Rate {
        if let Some(fine) = Rate::try_new(part, whole, FINE_POWER) {
            return fine;
        }
        match Rate::try_new(part, whole, MIDDLE_POWER) {
            Some(middle) => middle,
            None => Rate {
                factor: narrow(part.wrapping_div(whole.max(1))),
                power: 0,
            },
        }
    }

    /// So much of a number, rounded down.
    pub fn of(self, number: i64) -> i64 {
        narrow(wide(number, self.factor).wrapping_shr(self.power))
    }
}

/// The number at a place that is counted from 1, and 0 where there is none.
pub fn at(list: &[i64], place: u32) -> i64 {
    match list.get((place as usize).wrapping_sub(1)) {
        Some(number) => *number,
        None => 0,
    }
}

/// A number is written at a place that is counted from 1, if there is one.
pub fn write(list: &mut [i64], place: u32, number: i64) {
    if let Some(cell) = list.get_mut((place as usize).wrapping_sub(1)) {
        *cell = number;
    }
}

// Each number gets so many times that of another list.
pub fn add_times(list: &mut [i64], other: &[i64], factor: i64) {
    for (cell, number) in list.iter_mut().zip(other) {
        *cell = plus(*cell, times(factor, *number));
    }
}

/// The sum of products.
pub fn dot(a: &[i64], b: &[i64]) -> i128 {
    let mut sum = 0i128;
    for (x, y) in a.iter().zip(b) {
        sum = sum.saturating_add(wide(*x, *y));
    }
    sum
}

/// The same of amounts.
pub fn dot_amounts(a: &[i64], b: &[u64]) -> i128 {
    let mut sum = 0i128;
    for (x, y) in a.iter().zip(b) {
        sum = sum.saturating_add(wide(*x, of_amount(*y)));
    }
    sum
}

/// Whether no number is below 0.
pub fn none_is_negative(list: &[i64]) -> bool
    ensures { IsTrue result ↔ All (λ number. pos 0 ≤ℤ number) list.now }
{
    list.iter().all(|number| *number >= 0)
}

// The lower one of two numbers, the first of which there may not be.
pub fn lower(one: Option<i64>, other: i64) -> i64 {
    match one {
        Some(number) => number.min(other),
        None => other,
    }
}

// The sum of numbers.
pub fn sum_of(list: &[i64]) -> i64 {
    let mut sum = 0;
    for number in list {
        sum = plus(sum, *number);
    }
    sum
}

// A list is a copy of another one.
pub fn refill(list: &mut Vec<i64>, from: &[i64]) -> Result<(), AllocError> {
    list.clear();
    for number in from {
        list.push(*number)?;
    }
    Ok(())
}

// A list has so many times each of some amounts.
pub fn refill_scaled(list: &mut Vec<i64>, amounts: &[u64], scale: i64) -> Result<(), AllocError> {
    list.clear();
    for amount in amounts {
        list.push(times(scale, of_amount(*amount)))?;
    }
    Ok(())
}

//! The same operations in their plain form: by Euclid's divisions, and with a divisor each time. Tests and times compare
//! them with those of `Frac`, which give the same by their contracts.
ghost use Rattle.std.specs.Prelude.{◌≡◌, ◌≢◌, MatchOption, pos, ◌+ℤ◌, ◌-ℤ◌, ◌*ℤ◌, ◌<ℤ◌, ◌≤ℤ◌, unsigned_abs};
ghost use Rattle.std.specs.Option.{SomeIff};
ghost use Rattle.std.specs.Int.{IsGcd};
ghost use Rattle.rational.specs.Rational.{make, whole, ◌+ℚ◌, ◌-ℚ◌, ◌*ℚ◌};
ghost use Rattle.frac128.specs.Limits.{AlignFits, divided_ℚ, Fits, IsSmall, SumFits};
ghost use Rattle.frac128.specs.Parts.{Aligns, Shares};

use crate::Frac;
use crate::steps::{Alignment, minus, plus, quotient, times};

// The greatest common divisor of numbers of 32 bits.
fn gcd_short(a: u32, b: u32) -> u32
    ensures { IsGcd a b result }
{
    let mut x = a;
    let mut y = b;
    while y != 0 {
        let rest = x % y;
        x = y;
        y = rest;
    }
    x
}

// The greatest common divisor of numbers of 64 bits.
fn gcd_small(a: u64, b: u64) -> u64
    ensures { IsGcd a b result }
{
    if a <= u32::MAX as u64 && b <= u32::MAX as u64 {
        return gcd_short(a as u32, b as u32) as u64;
    }
    let mut x = a;
    let mut y = b;
    while y > u32::MAX as u64 {
        let rest = x % y;
        x = y;
        y = rest;
    }
    if y == 0 {
        return x;
    }
    gcd_short(y as u32, (x % y) as u32) as u64
}

// The greatest common divisor. It runs on 64 bits and on 32 as soon as the numbers fit.
fn gcd(a: u128, b: u128) -> u128
    ensures { IsGcd a b result }
{
    if a <= u64::MAX as u128 && b <= u64::MAX as u128 {
        return gcd_small(a as u64, b as u64) as u128;
    }
    let mut x = a;
    let mut y = b;
    while y > u64::MAX as u128 {
        let rest = x % y;
        x = y;
        y = rest;
    }
    if y == 0 {
        return x;
    }
    gcd_small(y as u64, (x % y) as u64) as u128
}

// The greatest common divisor of a number and one above 0. It is above 0.
fn common(num: i128, den: i128) -> i128
    requires { pos 0 <ℤ den }
    ensures is { IsGcd (unsigned_abs num) (unsigned_abs den) (unsigned_abs result) }
    ensures positive { pos 0 <ℤ result }
    ensures most { result ≤ℤ den }
{
    if den == 1 {
        return 1;
    }
    gcd(num.unsigned_abs(), den.unsigned_abs()) as i128
}

// The fractions a/b and c/d over their common denominator, where all three numbers are small.
fn aligned(a: i128, b: i128, c: i128, d: i128) -> Option<Alignment>
    requires b_positive { pos 0 <ℤ b }
    requires d_positive { pos 0 <ℤ d }
    requires a_small { IsSmall a }
    requires c_small { IsSmall c }
    ensures { MatchOption result (AlignFits a b c d → ⊥)
        (λ parts. AlignFits a b c d × Aligns a b c d parts) }
{
    if b == d {
        return Some(Alignment {
            left: a,
            right: c,
            den: b,
            shared: b,
        });
    }
    let shared = common(b, d);
    let factor = quotient(d, shared);
    let left = times(a, factor)?;
    let right = times(c, quotient(b, shared))?;
    let den = times(b, factor)?;
    Some(Alignment {
        left,
        right,
        den,
        shared,
    })
}

// The number num/den in lowest terms, where `shared` has all that num and den share: the smaller
// it is, the less there is to divide.
fn reduced(num: i128, den: i128, shared: i128) -> Frac
    requires positive { pos 0 <ℤ den }
    requires small { IsSmall num }
    requires shares { Shares num den shared }
    ensures { result ≡ make num den }
{
    let divisor = common(num, shared);
    Frac {
        num: quotient(num, divisor),
        den: quotient(den, divisor),
    }
}

/// The sum. With the factors that the denominators share taken out, None exactly where one of the
/// two numerators over the new denominator, their sum or that denominator doesn't fit.
pub fn add(one: Frac, other: Frac) -> Option<Frac>
    ensures { SomeIff result (SumFits ◌+ℤ◌ one other) (one +ℚ other) }
{
    let parts = aligned(one.num, one.den, other.num, other.den)?;
    let total = plus(parts.left, parts.right)?;
    Some(reduced(total, parts.den, parts.shared))
}

/// The difference. None by the same rule as for the sum.
pub fn sub(one: Frac, other: Frac) -> Option<Frac>
    ensures { SomeIff result (SumFits ◌-ℤ◌ one other) (one -ℚ other) }
{
    let parts = aligned(one.num, one.den, other.num, other.den)?;
    let total = minus(parts.left, parts.right)?;
    Some(reduced(total, parts.den, parts.shared))
}

/// The product. None exactly where it doesn't fit in lowest terms.
pub fn mul(one: Frac, other: Frac) -> Option<Frac>
    ensures { SomeIff result (Fits (one *ℚ other)) (one *ℚ other) }
{
    let across = common(one.num, other.den);
    let back = common(other.num, one.den);
    let num = times(quotient(one.num, across), quotient(other.num, back))?;
    let den = times(quotient(one.den, back), quotient(other.den, across))?;
    Some(Frac { num, den })
}

/// The quotient. None exactly where the other number is 0, or it doesn't fit in lowest terms.
pub fn div(one: Frac, other: Frac) -> Option<Frac>
    ensures { SomeIff result ((other ≢ whole (pos 0)) × Fits (divided_ℚ one other))
        (divided_ℚ one other) }
{
    if other.num == 0 {
        return None;
    }
    mul(one, other.inverse())
}

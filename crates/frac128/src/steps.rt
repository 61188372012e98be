// Steps on whole numbers that are at most 2^127 - 1 in absolute value.
ghost use Rattle.std.specs.Prelude.{◌≡◌, MatchOption, pos, ◌+ℤ◌, ◌-ℤ◌, ◌*ℤ◌, ◌<ℤ◌, neg_ℤ, int_div};
ghost use Rattle.std.specs.Option.{SomeIff};
ghost use Rattle.frac128.specs.Limits.{AlignFits, IsSmall};
ghost use Rattle.frac128.specs.Parts.{Aligns};

use crate::divisor::common;

// The number, if it is small.
fn small(number: i128) -> Option<i128>
    ensures { SomeIff result (IsSmall number) number }
{
    if number == i128::MIN {
        None
    } else {
        Some(number)
    }
}

// The product of numbers of 64 bits, without the test of a wide one.
fn times_short(a: i64, b: i64) -> i128
    ensures value { result ≡ a *ℤ b }
    ensures small { IsSmall result }
{
    a as i128 * b as i128
}

/// The product, if it is small.
pub fn times(a: i128, b: i128) -> Option<i128>
    ensures { SomeIff result (IsSmall (a *ℤ b)) (a *ℤ b) }
{
    if let (Ok(a), Ok(b)) = (i64::try_from(a), i64::try_from(b)) {
        return Some(times_short(a, b));
    }
    match a.checked_mul(b) {
        Some(product) => small(product),
        None => None,
    }
}

/// The sum, if it is small.
pub fn plus(a: i128, b: i128) -> Option<i128>
    ensures { SomeIff result (IsSmall (a +ℤ b)) (a +ℤ b) }
{
    match a.checked_add(b) {
        Some(sum) => small(sum),
        None => None,
    }
}

/// The difference, if it is small.
pub fn minus(a: i128, b: i128) -> Option<i128>
    ensures { SomeIff result (IsSmall (a -ℤ b)) (a -ℤ b) }
{
    match a.checked_sub(b) {
        Some(difference) => small(difference),
        None => None,
    }
}

/// The quotient by a number above 0, rounded toward 0.
pub fn quotient(num: i128, den: i128) -> i128
    requires { pos 0 <ℤ den }
    ensures { result ≡ int_div num den }
{
    if den == 1 {
        return num;
    }
    if let (Ok(num), Ok(den)) = (i64::try_from(num), i64::try_from(den)) {
        return (num / den) as i128;
    }
    num / den
}

/// Two numerators over the denominator that two fractions have in common, and the greatest common
/// divisor of their own denominators.
#[derive(Clone, Copy, Debug, PartialEq, Eq)]
pub struct Alignment {
    pub left: i128,
    pub right: i128,
    pub den: i128,
    pub shared: i128,
}

/// The fractions a/b and c/d over their common denominator, where all three numbers are small.
pub fn aligned(a: i128, b: i128, c: i128, d: i128) -> Option<Alignment>
    requires b_positive { pos 0 <ℤ b }
    requires d_positive { pos 0 <ℤ d }
    requires a_small { IsSmall a }
    requires c_small { IsSmall c }
    ensures { MatchOption result (AlignFits a b c d → ⊥)
        (λ parts. AlignFits a b c d × Aligns a b c d parts) }
{
    if b == d {
        return Some(Alignment {
            left: a,
            right: c,
            den: b,
            shared: b,
        });
    }
    let shared = common(b, d);
    let factor = quotient(d, shared);
    let left = times(a, factor)?;
    let right = times(c, quotient(b, shared))?;
    let den = times(b, factor)?;
    Some(Alignment {
        left,
        right,
        den,
        shared,
    })
}

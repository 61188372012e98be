// Products of 256 bits.
ghost use Rattle.std.specs.Prelude.{◌≡◌, ◌+◌, ◌*◌, ◌^◌, pos, ◌*ℤ◌, ◌<ℤ◌};
ghost use Rattle.std.specs.Ordering.{int_cmp, nat_cmp};

use crate::steps::times;
use std::cmp::Ordering;

// 2^64
const HALF: u128 = 18_446_744_073_709_551_616;

/// A number of 256 bits: `high` times 2^128 plus `low`.
#[derive(Clone, Copy, Debug, PartialEq, Eq)]
pub struct Wide {
    pub high: u128,
    pub low: u128,
}

/// The product.
pub fn product(a: u128, b: u128) -> Wide
    ensures { result.high * 2 ^ 128 + result.low ≡ a * b }
{
    let (a_high, a_low) = (a / HALF, a % HALF);
    let (b_high, b_low) = (b / HALF, b % HALF);
    let low = a_low * b_low;
    let cross = a_high * b_low + low / HALF;
    let middle = a_low * b_high + cross % HALF;
    Wide {
        high: a_high * b_high + cross / HALF + middle / HALF,
        low: middle % HALF * HALF + low % HALF,
    }
}

// How two products stand.
fn compare_wide(a: u128, b: u128, c: u128, d: u128) -> Ordering
    ensures { result ≡ nat_cmp (a * b) (c * d) }
{
    let (left, right) = (product(a, b), product(c, d));
    if left.high == right.high {
        left.low.cmp(&right.low)
    } else {
        left.high.cmp(&right.high)
    }
}

/// How a times b stands to c times d, for b and d above 0. Where a product passes 128 bits it goes by
/// the signs and by products of 256 bits.
pub fn compare_products(a: i128, b: i128, c: i128, d: i128) -> Ordering
    requires b_positive { pos 0 <ℤ b }
    requires d_positive { pos 0 <ℤ d }
    ensures { result ≡ int_cmp (a *ℤ b) (c *ℤ d) }
{
    if let (Some(left), Some(right)) = (times(a, b), times(c, d)) {
        return left.cmp(&right);
    }
    let (left, right) = (a.unsigned_abs(), c.unsigned_abs());
    let (b, d) = (b.unsigned_abs(), d.unsigned_abs());
    if a < 0 {
        if c >= 0 {
            return Ordering::Less;
        }
        return compare_wide(right, d, left, b);
    }
    if c < 0 {
        return Ordering::Greater;
    }
    compare_wide(left, b, right, d)
}

// Numbers of 128 bits in which what doesn't fit is the greatest one.
ghost use Rattle.std.specs.Prelude.{◌≡◌, ◌*◌, ◌≤◌, ◌⊎◌, min};
ghost use Rattle.chain_dp.specs.Numbers.{most};

// The greatest number of 64 bits.
const MOST_64: u128 = u64::MAX as u128;

/// The lesser of two numbers.
pub(crate) fn lesser(one: u128, other: u128) -> u128
    ensures one { result ≤ one }
    ensures other { result ≤ other }
    ensures either { (result ≡ one) ⊎ (result ≡ other) }
{
    if other < one { other } else { one }
}

/// The product of two numbers, or the greatest number where it doesn't fit. Two numbers of 64 bits, as most
/// prices and units are, take one multiplication of the processor.
pub(crate) fn times(one: u128, other: u128) -> u128
    ensures { result ≡ min (one * other) most }
{
    if one <= MOST_64 && other <= MOST_64 {
        u128::from(one as u64) * u128::from(other as u64)
    } else {
        one.saturating_mul(other)
    }
}

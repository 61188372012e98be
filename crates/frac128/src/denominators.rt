// The least common denominator of fractions, and numerators over it.
ghost use Rattle.std.specs.Prelude.{◌*ℤ◌, ◌<ℤ◌, ◌↔◌, pos, IfSome, IsNone};
ghost use Rattle.std.specs.Option.{SomeIff};
ghost use Rattle.rational.specs.Rational.{make};
ghost use Rattle.frac128.specs.Limits.{IsSmall};
ghost use Rattle.frac128.specs.Denominators.{HasLargeDenominator, IsCommonDenominator, numerator_over};

use crate::Frac;
use crate::steps::{quotient, times};

// A number times the denominator of itself over another, their least common multiple, if that is below 2^127.
fn grown(den: i128, other: i128) -> Option<i128>
    requires den_positive { pos 0 <ℤ den }
    requires den_small { IsSmall den }
    requires other_positive { pos 0 <ℤ other }
    requires other_small { IsSmall other }
    ensures { SomeIff result (IsSmall (den *ℤ (make den other).den)) (den *ℤ (make den other).den) }
{
    match Frac::new(den, other) {
        Some(part) => times(den, part.den()),
        None => None,
    }
}

/// The least common denominator of fractions, which is the least common multiple of their denominators in lowest terms
/// and 1 for none. None exactly where it is 2^127 or more. It takes a common divisor for each fraction.
pub fn common_denominator(fractions: &[Frac]) -> Option<i128>
    ensures some { IfSome result (IsCommonDenominator fractions.now) }
    ensures none { IsNone result ↔ HasLargeDenominator fractions.now }
{
    let mut den = 1;
    for fraction in fractions {
        match grown(den, fraction.den()) {
            Some(next) => den = next,
            None => return None,
        }
    }
    Some(den)
}

impl Frac {
    /// The numerator over another denominator, a multiple of that in lowest terms: the number times it. None exactly
    /// where this is 2^127 or more in absolute value.
    pub fn numerator_over(self, den: i128) -> Option<i128>
        ensures { SomeIff result (IsSmall (numerator_over self den)) (numerator_over self den) }
    {
        times(self.num(), quotient(den, self.den()))
    }
}

// Quotients that are only compared.
ghost use Rattle.std.specs.Prelude.{◌≢◌, pos};
ghost use Rattle.std.specs.Option.{SomeIff};
ghost use Rattle.rational.specs.Rational.{whole, IsOrder};
ghost use Rattle.frac128.specs.Limits.{divided_ℚ, Fits};

use crate::Frac;
use crate::steps::times;
use crate::wide::compare_products;
use std::cmp::Ordering;
use std::marker::Model;

/// A quotient of two fractions, to be compared with others. It needn't be in lowest terms, and so takes no divisor.
#[derive(Debug, Drop)]
pub struct Ratio {
    num: i128,
    den: i128,
}

impl Model for Ratio {
    ghost use Rattle.std.specs.Prelude.{pos, ◌<ℤ◌};
    ghost use Rattle.rational.specs.Rational.{ℚ, make};

    ghost Value = { ℚ };

    ghost view = { λ f. make f.num f.den };

    ghost invariant = { λ f. pos 0 <ℤ f.den };
}

impl Ratio {
    /// How the quotient stands to another. It answers for all.
    pub fn compare(&self, other: &Ratio) -> Ordering
        ensures { IsOrder self.now other.now result }
    {
        compare_products(self.num, other.den, other.num, self.den)
    }
}

impl Frac {
    /// The quotient, to be compared. None exactly where `div` is None, so where the other number is 0 or the quotient
    /// doesn't fit in lowest terms.
    pub fn ratio(self, other: Frac) -> Option<Ratio>
        ensures { SomeIff result ((other ≢ whole (pos 0)) × Fits (divided_ℚ self other))
            (divided_ℚ self other) }
    {
        if other.num == 0 {
            return None;
        }
        let turned = other.inverse();
        if let (Some(num), Some(den)) = (times(self.num, turned.num), times(self.den, turned.den)) {
            return Some(Ratio { num, den });
        }
        let quotient = self.mul(turned)?;
        Some(Ratio {
            num: quotient.num,
            den: quotient.den,
        })
    }
}

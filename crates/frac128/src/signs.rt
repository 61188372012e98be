// Whole numbers, opposites and signs, none of which needs a divisor.
ghost use Rattle.std.specs.Prelude.{◌≡◌, ◌≢◌, false, pos, IsTrue};
ghost use Rattle.std.specs.Option.{SomeIff};
ghost use Rattle.rational.specs.Rational.{neg_ℚ, whole, ◌≤ℚ◌};
ghost use Rattle.frac128.specs.Limits.{IsSmall};

use crate::Frac;
use std::ops::Neg;

impl Frac {
    /// The whole number. None exactly at -2^127, which is none of its numbers.
    pub fn whole(number: i128) -> Option<Frac>
        ensures { SomeIff result (IsSmall number) (whole number) }
    {
        if number == i128::MIN {
            return None;
        }
        Some(Frac::of_whole(number))
    }

    // A whole number that is small.
    fn of_whole(number: i128) -> Frac
        requires { IsSmall number }
        ensures { result ≡ whole number }
    {
        Frac {
            num: number,
            den: 1,
        }
    }

    /// Whether the number is below 0.
    pub fn is_negative(self) -> bool
        ensures yes { IsTrue result → whole (pos 0) ≤ℚ self → ⊥ }
        ensures no { result ≡ false → whole (pos 0) ≤ℚ self }
    {
        self.num < 0
    }

    /// Whether the number is above 0.
    pub fn is_positive(self) -> bool
        ensures yes { IsTrue result → self ≤ℚ whole (pos 0) → ⊥ }
        ensures no { result ≡ false → self ≤ℚ whole (pos 0) }
    {
        self.num > 0
    }

    /// Whether the number is 0.
    pub fn is_zero(self) -> bool
        ensures yes { IsTrue result → self ≡ whole (pos 0) }
        ensures no { result ≡ false → self ≢ whole (pos 0) }
    {
        self.num == 0
    }
}

impl Neg for Frac {
    ghost use Rattle.std.specs.Prelude.{◌≡◌};
    ghost use Rattle.rational.specs.Rational.{neg_ℚ};

    type Output = Frac;

    ghost neg_gives = { λ x y. y ≡ neg_ℚ x };

    fn neg(self) -> Frac {
        Frac {
            num: -self.num,
            den: self.den,
        }
    }
}

impl From<i64> for Frac {
    ghost use Rattle.std.specs.Prelude.{◌≡◌};
    ghost use Rattle.rational.specs.Rational.{whole};

    ghost from_gives = { λ number x. x ≡ whole number };

    fn from(number: i64) -> Frac {
        Frac::of_whole(number as i128)
    }
}

impl From<u64> for Frac {
    ghost use Rattle.std.specs.Prelude.{◌≡◌, pos};
    ghost use Rattle.rational.specs.Rational.{whole};

    ghost from_gives = { λ number x. x ≡ whole (pos number) };

    fn from(number: u64) -> Frac {
        Frac::of_whole(number as i128)
    }
}

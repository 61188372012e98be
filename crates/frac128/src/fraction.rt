// The fractions.
ghost use Rattle.std.specs.Prelude.{◌≡◌, ◌≢◌, ◌<◌, ◌/◌, ◌^◌, pos, ◌<ℤ◌, ◌+ℤ◌, ◌-ℤ◌};
ghost use Rattle.std.specs.Option.{SomeIff};
ghost use Rattle.rational.specs.Rational.{make, inv_ℚ, whole, ◌+ℚ◌, ◌-ℚ◌, ◌*ℚ◌, IsCeiling, IsOrder, cmp_ℚ};
ghost use Rattle.frac128.specs.Limits.{divided_ℚ, quotient_ℚ, signed, Fits, IsSmall, SumFits};
ghost use Rattle.frac128.specs.Parts.{Shares};

use crate::divisor::{common, gcd};
use crate::steps::{aligned, minus, plus, quotient, times};
use crate::wide::compare_products;
use std::cmp::Ordering;
use std::fmt;
use std::marker::Model;

// The greatest numerator or denominator, 2^127 - 1.
const MOST: u128 = i128::MAX as u128;

/// A fraction in lowest terms with a denominator above 0, both at most 2^127 - 1 in absolute value.
#[derive(Clone, Copy, Debug)]
pub struct Frac {
    pub(crate) num: i128,
    pub(crate) den: i128,
}

impl Model for Frac {
    ghost use Rattle.rational.specs.Rational.{ℚ, make};
    ghost use Rattle.frac128.specs.Limits.{IsSmall};
    ghost use Rattle.algebra.specs.Fractions.{IsLowest};
    ghost use Rattle.rational.proofs.Rationals.{lowest_back};

    ghost Value = { ℚ };

    ghost view = { λ f. make f.num f.den };

    ghost invariant = { λ f. IsLowest f.num f.den × IsSmall f.num };

    ghost inverse = { λ x. record { num = x.num; den = x.den } };

    ghost inverse_ok = { λ f h. lowest_back (λ n d. record { num = n; den = d }) f.num f.den h.0 };
}

impl Frac {
    /// The numerator, in lowest terms.
    pub fn num(self) -> i128
        ensures value { result ≡ self.num }
        ensures small { IsSmall result }
    {
        self.num
    }

    /// The denominator, in lowest terms. It is above 0.
    pub fn den(self) -> i128
        ensures value { result ≡ self.den }
        ensures positive { pos 0 <ℤ result }
        ensures small { IsSmall result }
    {
        self.den
    }

    /// The number num/den. None exactly where den is 0, or a part of it in lowest terms doesn't fit.
    pub fn new(num: i128, den: i128) -> Option<Frac>
        ensures { SomeIff result ((den ≢ pos 0) × Fits (quotient_ℚ num den)) (quotient_ℚ num den) }
    {
        if den == 0 {
            return None;
        }
        Frac::of_parts(
            (num < 0) != (den < 0),
            num.unsigned_abs(),
            den.unsigned_abs(),
        )
    }

    // The number num/den with this sign, if it fits in lowest terms.
    fn of_parts(negative: bool, num: u128, den: u128) -> Option<Frac>
        requires { 0 < den }
        ensures { SomeIff result (Fits (make (signed negative num) (pos den)))
            (make (signed negative num) (pos den)) }
    {
        let shared = gcd(num, den);
        let top = part(num, shared);
        let bottom = part(den, shared);
        if top > MOST {
            return None;
        }
        if bottom > MOST {
            return None;
        }
        Some(Frac {
            num: with_sign(negative, top),
            den: bottom as i128,
        })
    }

    // The number num/den in lowest terms, where `shared` has all that num and den share: the smaller
    // it is, the less there is to divide.
    fn reduced(num: i128, den: i128, shared: i128) -> Frac
        requires positive { pos 0 <ℤ den }
        requires small { IsSmall num }
        requires shares { Shares num den shared }
        ensures { result ≡ make num den }
    {
        let divisor = common(num, shared);
        Frac {
            num: quotient(num, divisor),
            den: quotient(den, divisor),
        }
    }

    /// The sum. With the factors that the denominators share taken out, None exactly where one of the
    /// two numerators over the new denominator, their sum or that denominator doesn't fit.
    pub fn add(self, other: Frac) -> Option<Frac>
        ensures { SomeIff result (SumFits ◌+ℤ◌ self other) (self +ℚ other) }
    {
        let parts = aligned(self.num, self.den, other.num, other.den)?;
        let total = plus(parts.left, parts.right)?;
        Some(Frac::reduced(total, parts.den, parts.shared))
    }

    /// The difference. None by the same rule as for the sum.
    pub fn sub(self, other: Frac) -> Option<Frac>
        ensures { SomeIff result (SumFits ◌-ℤ◌ self other) (self -ℚ other) }
    {
        let parts = aligned(self.num, self.den, other.num, other.den)?;
        let total = minus(parts.left, parts.right)?;
        Some(Frac::reduced(total, parts.den, parts.shared))
    }

    /// The product. None exactly where it doesn't fit in lowest terms.
    pub fn mul(self, other: Frac) -> Option<Frac>
        ensures { SomeIff result (Fits (self *ℚ other)) (self *ℚ other) }
    {
        let across = common(self.num, other.den);
        let back = common(other.num, self.den);
        let num = times(quotient(self.num, across), quotient(other.num, back))?;
        let den = times(quotient(self.den, back), quotient(other.den, across))?;
        Some(Frac { num, den })
    }

    /// The quotient. None exactly where the other number is 0, or it doesn't fit in lowest terms.
    pub fn div(self, other: Frac) -> Option<Frac>
        ensures { SomeIff result ((other ≢ whole (pos 0)) × Fits (divided_ℚ self other))
            (divided_ℚ self other) }
    {
        if other.num == 0 {
            return None;
        }
        self.mul(other.inverse())
    }

    // One by the number, which is not 0.
    pub(crate) fn inverse(self) -> Frac
        requires { self ≢ whole (pos 0) }
        ensures { result ≡ inv_ℚ self }
    {
        if self.num > 0 {
            Frac {
                num: self.den,
                den: self.num,
            }
        } else {
            Frac {
                num: -self.den,
                den: -self.num,
            }
        }
    }

    /// How the number stands to the other. It answers for all numbers.
    pub fn compare(self, other: Frac) -> Ordering
        ensures order { IsOrder self other result }
        ensures value { result ≡ cmp_ℚ self other }
    {
        if self.den == other.den {
            return self.num.cmp(&other.num);
        }
        compare_products(self.num, other.den, other.num, self.den)
    }

    /// The least whole number not below it.
    pub fn ceil(self) -> i128
        ensures { IsCeiling self result }
    {
        -(-self.num).div_euclid(self.den)
    }
}

impl PartialEq for Frac {
    ghost use Rattle.std.specs.Ordering.{eq_by_cmp};
    ghost use Rattle.std.specs.Cmp.{partial_equiv_from_equiv};
    ghost use Rattle.std.proofs.lemmas.Cmp.{eq_by_cmp_equiv};
    ghost use Rattle.rational.specs.Rational.{cmp_ℚ};
    ghost use Rattle.rational.proofs.Orders.{cmp_total};

    ghost eq = { eq_by_cmp cmp_ℚ };

    ghost laws = { partial_equiv_from_equiv (eq_by_cmp_equiv cmp_total) };

    fn eq(&self, other: &Frac) -> bool {
        self.num == other.num && self.den == other.den
    }
}

impl Eq for Frac {
    ghost use Rattle.std.proofs.lemmas.Cmp.{eq_by_cmp_equiv};
    ghost use Rattle.rational.proofs.Orders.{cmp_total};

    ghost laws = { eq_by_cmp_equiv cmp_total };
}

impl PartialOrd for Frac {
    ghost use Rattle.std.specs.Ordering.{as_partial_cmp};
    ghost use Rattle.std.specs.Cmp.{partial_order_from_total};
    ghost use Rattle.rational.specs.Rational.{cmp_ℚ};
    ghost use Rattle.rational.proofs.Orders.{cmp_total};

    ghost partial_cmp = { as_partial_cmp cmp_ℚ };

    ghost laws = { partial_order_from_total cmp_total };

    fn partial_cmp(&self, other: &Frac) -> Option<Ordering> {
        Some(self.cmp(other))
    }
}

impl Ord for Frac {
    ghost use Rattle.std.proofs.Common.{refl};
    ghost use Rattle.rational.specs.Rational.{cmp_ℚ};
    ghost use Rattle.rational.proofs.Orders.{cmp_total};

    ghost cmp = { cmp_ℚ };

    ghost total = { cmp_total };

    ghost matches_partial_cmp = { λ x y. refl };

    ghost matches_eq = { λ x y. refl };

    fn cmp(&self, other: &Frac) -> Ordering {
        self.compare(*other)
    }
}

impl fmt::Display for Frac {
    ghost use Rattle.std.specs.Prelude.{Some};
    ghost use Rattle.frac128.specs.Text.{fraction_text};

    ghost output = { λ x. Some (fraction_text x) };

    fn fmt<W: fmt::Write>(&self, f: &mut fmt::Formatter<W>) -> fmt::Result {
        let (num, den) = (self.num, self.den);
        if den == 1 {
            return write!(f, "{num}");
        }
        write!(f, "{num}/{den}")
    }
}

// A number with this sign.
fn with_sign(negative: bool, number: u128) -> i128
    requires { number < 2 ^ 127 }
    ensures { result ≡ signed negative number }
{
    if negative {
        -(number as i128)
    } else {
        number as i128
    }
}

// A number without a divisor of it, which is often 1.
fn part(number: u128, shared: u128) -> u128
    requires { 0 < shared }
    ensures { result ≡ number / shared }
{
    if shared == 1 {
        return number;
    }
    number / shared
}

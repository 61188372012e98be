//! Exact fractions of any size, for proofs.
//!
//! Family: numbers. It stands on `algebra`; `frac128`, `tableau` and all contracts that speak of fractions stand
//! on it.
//!
//! A rational number is a record of a numerator, a denominator above 0 and the proof that they are
//! in lowest terms, so equal numbers are one value and contracts write `≡` between them. They are an
//! ordered field: `rational_ring` and `rational_ordered` of `proofs/Rationals` give them to the
//! solver and the claims of `algebra`. `floor_ℚ` and `ceil_ℚ` round them.
//!
//! No program calls this crate: contracts speak of its numbers, and proofs import its lemmas.
#![tactic(auto)]

ghost use Rattle.rational.specs.Laws.{AreOrderedField, IsComparison, RoundToWhole};

/// The rational numbers are an ordered field.
pub fn ordered_field()
    ensures { AreOrderedField }
{}

/// Floor and ceiling are the nearest whole numbers below and above.
pub fn rounding()
    ensures { RoundToWhole }
{}

/// Numbers are compared by their cross products.
pub fn comparison()
    ensures { IsComparison }
{}

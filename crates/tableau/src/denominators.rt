// Fractions times their least common denominator.
ghost use Rattle.std.specs.Prelude.{◌↔◌, length, IfOk, IfSome, IsNone};
ghost use Rattle.frac128.specs.Denominators.{IsCommonDenominator};
ghost use Rattle.tableau.specs.Outcomes.{number_at};
ghost use Rattle.tableau.specs.Denominators.{AreNumerators, AreWholeMultipliers, HasLarge, PassWhole};

use frac128::{Frac, common_denominator};
use std::alloc::{AllocError, Global};

/// Fractions over their least common denominator.
#[derive(Debug, Drop)]
pub struct WholeMultipliers {
    /// The least common denominator, at least 1.
    pub den: i128,
    /// Each fraction times it.
    pub numerators: Vec<i128>,
}

// Fractions times their least common denominator. None exactly where one of them is 2^127 or more in absolute value.
fn numerators(alloc: Global, fractions: &[Frac], den: i128) -> Result<Option<Vec<i128>>, AllocError>
    requires common { IsCommonDenominator fractions.now den }
    ensures some { IfOk result (λ found.
        IfSome found (λ list.
        AreNumerators (length fractions.now) (number_at fractions.now) den list.items)) }
    ensures none { IfOk result (λ found. IsNone found
        → HasLarge (length fractions.now) (number_at fractions.now) den) }
{
    let mut list = Vec::new(alloc);
    for fraction in fractions {
        match fraction.numerator_over(den) {
            Some(next) => list.push(next)?,
            None => return Ok(None),
        }
    }
    Ok(Some(list))
}

/// The least common denominator of fractions, and each fraction times it, which is whole. None exactly where the
/// denominator, or one of these numerators, is 2^127 or more in absolute value; of no fractions the denominator is 1.
///
/// It takes a common divisor and memory of 16 bytes for each fraction. The error is that memory ran out.
pub fn whole_multipliers(
    alloc: Global,
    fractions: &[Frac],
) -> Result<Option<WholeMultipliers>, AllocError>
    ensures some { IfOk result (λ found.
        IfSome found (λ whole.
        AreWholeMultipliers fractions.now whole.den whole.numerators.items)) }
    ensures none { IfOk result (λ found. IsNone found ↔ PassWhole fractions.now) }
{
    let Some(den) = common_denominator(fractions) else {
        return Ok(None);
    };
    let Some(numerators) = numerators(alloc, fractions, den)? else {
        return Ok(None);
    };
    Ok(Some(WholeMultipliers { den, numerators }))
}

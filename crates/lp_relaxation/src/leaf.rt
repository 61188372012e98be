// The denominator and the parts of a leaf from multipliers of a program's rows.
ghost use Rattle.std.specs.Prelude.{◌≡◌, ◌<◌, ◌++◌, ℕ, IfOk, MatchOption, length};
ghost use Rattle.frac128.specs.Limits.{IsSmall};
ghost use Rattle.tableau.specs.Denominators.{PassWhole, whole_at};
ghost use Rattle.lp_relaxation.specs.Leaves.{IsWholeLeaf};
ghost use Rattle.lp_relaxation.specs.Sides.{part_of, parts_of};

use crate::program::{Side, turn};
use cert_lines::Part;
use frac128::Frac;
use std::alloc::{AllocError, Global};
use tableau::whole_multipliers;

/// The line by which refusals name a leaf that no text has yet: only whether it is refused is looked at.
pub const LEAF_LINE: u64 = 1;

// Puts the part of a side after others, where the side is taken at all.
fn put_part(side: Side, times: i128, parts: &mut Vec<Part>) -> Result<(), AllocError>
    requires { IsSmall times }
    ensures { IfOk result (λ _. parts.new.items ≡ parts.old.items ++ part_of side times) }
{
    if times != 0 {
        parts.push(Part {
            row: side.name,
            times: turn(times, side.turned),
        })?;
    }
    Ok(())
}

/// The parts of a leaf, from whole multipliers of a program's rows, below 2^127 in absolute value: the row of each
/// side with its multiplier, whose sign is changed where the side's signs are. Sides that are taken 0 times have no
/// part. The error is that memory ran out.
pub fn leaf_parts(alloc: Global, sides: &[Side], times: &[i128]) -> Result<Vec<Part>, AllocError>
    requires size { length times.now ≡ length sides.now }
    requires small { (k : ℕ) → k < length sides.now → IsSmall (whole_at times.now k) }
    ensures { IfOk result (λ parts. parts.items ≡ parts_of sides.now (whole_at times.now)) }
{
    let mut parts = Vec::new(alloc);
    for index in 0..sides.len() {
        put_part(sides[index], times[index], &mut parts)?;
    }
    Ok(parts)
}

/// The multipliers of a program's rows over their least common denominator, as a leaf has them.
#[derive(Debug, Drop)]
pub struct WholeLeaf {
    /// The denominator: at least 1, and below 2^127.
    pub den: i128,
    /// The parts, of each side that is taken, in the order of sides.
    pub parts: Vec<Part>,
}

/// The least common denominator of multipliers, one of each side, and the parts from the multipliers times it, as
/// `leaf_parts` makes them. None where the denominator, or a multiplier times it, is 2^127 or more in absolute value.
///
/// It takes two common divisors for each multiplier and memory for the whole ones and the parts. The error is want of
/// memory.
pub fn whole_leaf(
    alloc: Global,
    sides: &[Side],
    multipliers: &[Frac],
) -> Result<Option<WholeLeaf>, AllocError>
    requires { length multipliers.now ≡ length sides.now }
    ensures { IfOk result (λ found.
        MatchOption found (PassWhole multipliers.now) (IsWholeLeaf sides.now multipliers.now)) }
{
    match whole_multipliers(alloc, multipliers)? {
        Some(whole) => {
            let parts = leaf_parts(alloc, sides, &whole.numerators)?;
            Ok(Some(WholeLeaf {
                den: whole.den,
                parts,
            }))
        }
        None => Ok(None),
    }
}

// The row of a cut.
ghost use Rattle.std.specs.Prelude.{◌+◌, ◌<◌, ◌^◌, length, IfErr, IfOk};
ghost use Rattle.echelon.specs.Weights.{IsExplosionOf};
ghost use Rattle.lin_rows.specs.Combining.{AreOfProblem};
ghost use Rattle.cert_lines.specs.Shapes.{cut_parts, cut_shape};
ghost use Rattle.cert_trees.specs.Ranges.{WithTotals};
ghost use Rattle.cert_meaning.specs.Accepts.{IsSmallCut};
ghost use Rattle.cert_checker.specs.Cuts.{HasDivisor, HasItsColumns, HoldsAfter, IsFaultOfCut, IsRowOfCut};

use crate::CheckFault;
use crate::cut_echelons::{block_cut, ls_cut, price_cut};
use crate::cut_rounding::round_cut;
use certificate::Cut;
use echelon::Explosion;
use lin_rows::Row;
use lot_model::Instance;
use std::alloc::Global;

/// The row of a cut, after the rows of earlier cuts. It holds at each feasible plan at which these hold (`holds`),
/// and has columns of the instance alone (`columns_exist`).
///
/// | Cut | Row |
/// |---|---|
/// | `Ls` | the (l,S) inequality of the item's echelon with its backlogs (Barany, Van Roy and Wolsey 1984) |
/// | `Price` | what units, stocks and backlogs of the echelon cost by the prices, and what its setups gain, is at least what its net demands are worth (Krarup and Bilde 1977) |
/// | `Block` | what setups, units, stocks and backlogs of the echelon cost by the prices is at least the last potential (Pochet and Wolsey) |
/// | `Round` | the sum of the parts, divided by the divisor, with each number rounded up (Gomory 1958; Chvatal 1973) |
///
/// In a price and a block cut the holding of what is left of the opening stock is added on the right side. The parts
/// of a rounding cut are rows of the instance or of `earlier`, which are counted from 1.
///
/// `explosion` is that of the instance: make one for all cuts. `line` is the cut's line in the text of a certificate.
/// A refusal names this line, but for a part of a rounding cut: the lines of the parts follow it. Of these causes the
/// first that holds comes, and memory may be wanting at any time.
///
/// | Cut | Cause |
/// |---|---|
/// | `Ls` | `Range`: there is no such item or no such last period, or there isn't a mark for each period up to that one |
/// | `Price`, `Block` | `Range`: there is no such item, a list of prices hasn't an entry for each period, or a price is past `MAX_PRICE` or a potential past `MAX_STEP` |
/// | these three | `Lead`: the item, or one that it goes into, has a lead time |
/// | `Block` | `Range`: there isn't a potential for each period with a net demand |
/// | `Block` | `Block`: potentials rise over a block of such periods by more than it costs; it is the first one |
/// | `Round` | `Range` or `Sign`, on the line of the first part that may not be taken: its row doesn't exist, or it takes an inequality a negative number of times |
/// | `Round` | `TooLarge`: the absolute values of what is added up of one column, or of the right sides, reach 2^127 |
///
/// The first three take the time of `ls_row`, `price_row` and `block_row`, and that of an echelon: the number of items
/// times that of the periods. A rounding cut takes time in n log n for n terms in all of its rows, each of which is
/// copied.
pub fn cut_row_in(
    alloc: Global,
    instance: &Instance,
    explosion: &Explosion,
    earlier: &[Row],
    cut: &Cut,
    line: u64,
) -> Result<Row, CheckFault>
    requires explosion { IsExplosionOf instance.now explosion.now }
    requires earlier { AreOfProblem instance.now earlier.now }
    requires divisor { HasDivisor (cut_shape cut.now) }
    requires lines { line + length (cut_parts (cut_shape cut.now)) < 2 ^ 64 }
    ensures row { IfOk result (IsRowOfCut instance.now earlier.now (cut_shape cut.now)) }
    ensures small { IfOk result (λ _.
        WithTotals instance.now
        (λ total. IsSmallCut instance.now total earlier.now (cut_shape cut.now))) }
    ensures holds { IfOk result (HoldsAfter instance.now earlier.now) }
    ensures columns_exist { IfOk result (HasItsColumns instance.now) }
    ensures fault { IfErr result (IsFaultOfCut instance.now earlier.now (cut_shape cut.now) line) }
{
    match cut {
        Cut::Ls { item, last, chosen } => {
            ls_cut(alloc, instance, explosion, *item, *last, chosen, line)
        }
        Cut::Price { item, prices } => {
            price_cut(alloc, instance, explosion, *item, prices, line)
        }
        Cut::Block { item, potentials } => {
            block_cut(alloc, instance, explosion, *item, potentials, line)
        }
        Cut::Round { divisor, parts } => {
            round_cut(alloc, instance, earlier, *divisor, parts, line)
        }
    }
}

/// The row of a cut, as `cut_row_in` gives it, with an explosion that is made for it: that takes time in the square
/// of the number of items.
pub fn cut_row(
    alloc: Global,
    instance: &Instance,
    earlier: &[Row],
    cut: &Cut,
    line: u64,
) -> Result<Row, CheckFault>
    requires earlier { AreOfProblem instance.now earlier.now }
    requires divisor { HasDivisor (cut_shape cut.now) }
    requires lines { line + length (cut_parts (cut_shape cut.now)) < 2 ^ 64 }
    ensures row { IfOk result (IsRowOfCut instance.now earlier.now (cut_shape cut.now)) }
    ensures small { IfOk result (λ _.
        WithTotals instance.now
        (λ total. IsSmallCut instance.now total earlier.now (cut_shape cut.now))) }
    ensures holds { IfOk result (HoldsAfter instance.now earlier.now) }
    ensures columns_exist { IfOk result (HasItsColumns instance.now) }
    ensures fault { IfErr result (IsFaultOfCut instance.now earlier.now (cut_shape cut.now) line) }
{
    let explosion = Explosion::of(alloc, instance)?;
    cut_row_in(alloc, instance, &explosion, earlier, cut, line)
}

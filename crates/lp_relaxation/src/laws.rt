// Laws about programs of named rows, each the contract of a function that does nothing.
ghost use Rattle.lp_relaxation.specs.Laws.{BaseRowsAreSmall, LsRowsAreSmall, RoundsAreFew, RoundsGrow, SidesAreRows};
ghost use Rattle.lp_relaxation.specs.Names.{BaseNamesAreAll};
ghost use Rattle.lp_relaxation.specs.Rounds.{RoundsClose, RoundsRefute};
ghost use Rattle.lp_relaxation.specs.Says.{EmptyIsSaid, LeastIsSaid};

use crate::values::relaxations_are_one;
use cert_meaning::{cuts_hold, echelon_rows_are_one};
use lin_rows::{sums_bound, sums_refute};
use ls_cuts::points_have_fractions;
use tableau::leaves_prove;

/// The base names are those of all rows that the rules of plans make, and of no others.
pub fn base_names_are_all()
    ensures { BaseNamesAreAll }
{}

/// What a least point of a program of named rows, and its whole multipliers, say: points of its fractions meet the rows
/// and cost the value, no point that meets the rows costs less, and the parts made from the multipliers are a leaf that
/// says the value rounded up.
pub fn least_is_said()
    ensures { LeastIsSaid }
{
    sums_bound();
    sums_refute();
    leaves_prove();
}

/// What whole multipliers say that leave no point of a program of named rows: no point meets the rows, and the parts
/// made from them are a leaf by Farkas' lemma.
pub fn empty_is_said()
    ensures { EmptyIsSaid }
{
    sums_bound();
    sums_refute();
    leaves_prove();
}

/// Where separation finds no row at a round's least point, the relaxation closes to the point's cost rounded up, and
/// the leaf of the multipliers says that number.
pub fn rounds_close()
    ensures { RoundsClose }
{
    least_is_said();
    cuts_hold();
    points_have_fractions();
    echelon_rows_are_one();
    relaxations_are_one();
}

/// Where no point meets a round's rows, the relaxation has none, and the leaf of the multipliers says so.
pub fn rounds_refute()
    ensures { RoundsRefute }
{
    empty_is_said();
    cuts_hold();
    relaxations_are_one();
}

/// With one cut more, the program of a round has its row more, and its side stands after the others.
pub fn rounds_grow()
    ensures { RoundsGrow }
{}

/// The numbers of base rows are below 2^127 in absolute value (`base`), and those of (l,S) rows (`ls`).
pub fn rows_are_small()
    ensures base { BaseRowsAreSmall }
    ensures ls { LsRowsAreSmall }
{}

/// A row whose columns rise and are those of the model, with small numbers, is a row of a program, as it is and with
/// all signs changed.
pub fn sides_are_rows()
    ensures { SidesAreRows }
{}

/// The program of a round has one side for each of its rows and, with up to `MAX_ROUND_CUTS` cuts, at most
/// `MAX_ROUND_SIZE` columns and rows, so that `Lp::new` and `push_row` can take them.
pub fn rounds_are_few()
    ensures { RoundsAreFew }
{}

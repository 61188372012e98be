// Laws about the (l,S) rows, each the contract of a function that does nothing.
ghost use Rattle.ls_cuts.specs.Laws.{AlikeRowsAreOne, LeftSidesAreRows, LesserSeparates, LsRowsAreRows, LsRowsHold, PointsHaveFractions};

use echelon_rows::echelons_go;
use valid_inequalities::ls_holds;

/// The (l,S) row of an echelon holds for each `l` and each set `S` at every plan of the echelon.
pub fn ls_rows_hold()
    ensures { LsRowsHold }
{
    echelons_go();
    ls_holds();
}

/// The columns of an (l,S) row rise, and each problem with the echelon has them.
pub fn ls_rows_are_rows()
    ensures { LsRowsAreRows }
{}

/// Echelons that agree up to `l` have the same (l,S) rows, as an `EchelonItem` and what a problem's definitions give of its
/// item.
pub fn alike_rows_are_one()
    ensures { AlikeRowsAreOne }
{}

/// The left side that separation evaluates is, in fractions of any sign, what the row's terms add to, and the opening
/// stock, which the row takes from its right side.
pub fn left_sides_are_rows()
    ensures { LeftSidesAreRows }
{}

/// The (l,S) row whose set has, in each period, the lesser of what is made and of the setup's part: no row of
/// this `l` has a lesser left side. It is violated where that is below what is asked for up to `l`, and
/// otherwise all rows of this `l` are met. It is so in fractions of any sign, and at each point of the linear
/// model that has these fractions.
pub fn lesser_separates()
    ensures { LesserSeparates }
{}

/// A point of the linear model that has given fractions at all columns of a problem has them at the columns of
/// the rows of each echelon of the problem.
pub fn points_have_fractions()
    ensures { PointsHaveFractions }
{}

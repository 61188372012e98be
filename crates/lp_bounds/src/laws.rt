// Laws about the base bound, each the contract of a function that does nothing.
ghost use Rattle.lp_bounds.specs.Bounds.{BaseBoundsAreFloors, BaseBoundsAreOne, CellsAreOne, EmptyIsImpossible};

use lin_rows::plans_cost;
use lot_sizing::totals_are_bounded;

/// A problem has at most one base bound, and none where no point meets all base rows (`bound`). All programs of its base
/// rows have the same number of cells (`cells`).
pub fn base_bounds_are_one()
    ensures bound { BaseBoundsAreOne }
    ensures cells { CellsAreOne }
{}

/// In a problem in which no item is its own component, no feasible plan costs less than the base bound (`bound`), and
/// where no point meets all base rows no plan is feasible (`empty`).
pub fn base_bounds_are_floors()
    ensures bound { BaseBoundsAreFloors }
    ensures empty { EmptyIsImpossible }
{
    totals_are_bounded();
    plans_cost();
}

// Laws, each the contract of a function that does nothing.
ghost use Rattle.must_start.specs.MustStart.{LevelsHold, MustStartHolds, MustStartIsOne, MustStartRises, NetIsWithinStart, StartIsWithinTotals};
ghost use Rattle.must_start.specs.Lots.{LotsAreOne, LotsHold};

use lot_sizing::totals_are_bounded;

/// Every feasible plan has started of each item what must have been started (`holds`), in every problem whose items
/// have a ranking. It is one number (`one`) and doesn't fall (`rises`). It is no less than what must be made for an
/// echelon without lead times and backlogs (`net`), and no more than the largest total (`totals`). Where more has been
/// started of one item, more has been of what goes into it (`levels`).
pub fn must_start_holds()
    ensures holds { MustStartHolds }
    ensures one { MustStartIsOne }
    ensures rises { MustStartRises }
    ensures net { NetIsWithinStart }
    ensures totals { StartIsWithinTotals }
    ensures levels { LevelsHold }
{}

/// A feasible plan makes at most the largest lot, and that with a setup (`holds`). An item has one largest lot in a
/// period (`one`).
pub fn lots_hold()
    ensures holds { LotsHold }
    ensures one { LotsAreOne }
{
    totals_are_bounded();
}

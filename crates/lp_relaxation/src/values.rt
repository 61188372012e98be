// Laws about the relaxation, each the contract of a function that does nothing.
ghost use Rattle.cert_meaning.specs.Worked.{model, total, weight};
ghost use Rattle.lp_relaxation.specs.Values.{ClosedValuesAreFloors, ClosedValuesAreOne, ClosesByOne, EmptyByOne, EmptyIsImpossible, PlansAreRelaxed, RelaxedByBoth};
ghost use Rattle.lp_relaxation.specs.Relaxation.{IsClosedValue};
ghost use Rattle.lp_relaxation.specs.Worked.{HasCheapest};

use cert_meaning::cuts_hold;
use lin_rows::plans_cost;
use lot_sizing::{totals_are_bounded, totals_are_one, weights_are_one};
use ls_cuts::alike_rows_are_one;

/// A feasible plan is a point of the relaxation, and costs what the point costs.
pub fn plans_are_relaxed()
    ensures { PlansAreRelaxed }
{
    totals_are_bounded();
    cuts_hold();
    plans_cost();
}

/// No feasible plan costs less than the closed value.
pub fn closed_values_are_floors()
    ensures { ClosedValuesAreFloors }
{
    plans_are_relaxed();
}

/// Where the relaxation has no point, no plan is feasible.
pub fn empty_is_impossible()
    ensures { EmptyIsImpossible }
{
    plans_are_relaxed();
}

/// The least cost of a relaxation, rounded up, is one number: it has at most one closed value, and one that has it has a
/// point.
pub fn closed_values_are_one()
    ensures { ClosedValuesAreOne }
{}

/// In a problem in which no item is its own component, the relaxation has the same points whichever largest totals and
/// weights are taken (`points`). So it is enough to know by one choice to what it closes (`closes`), or that it has no
/// point (`empty`).
pub fn relaxations_are_one()
    ensures points { RelaxedByBoth }
    ensures closes { ClosesByOne }
    ensures empty { EmptyByOne }
{
    totals_are_one();
    weights_are_one();
    alike_rows_are_one();
}

/// A worked example: the relaxation of the problem of the worked certificates closes to 20 (`value`). Its cheapest
/// point costs 77/4 (`cheapest`), and the best plan costs 23.
pub fn worked_is_closed()
    ensures cheapest { HasCheapest }
    ensures value { IsClosedValue model total weight 20 }
{}
